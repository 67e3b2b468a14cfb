//! All of some bytes to a sink.

ghost use Rattle.std.specs.Prelude.{◌≡◌, ◌≤◌, [], OnOk, OnErr};
ghost use Rattle.gu_outside.specs.Outside.{Rose, Appended, PrefixAdded};

use crate::{Failed, Sink};

/// Puts all of `bytes` on `output`. After `Failed` a beginning of them was put, and not all. Where there
/// are no bytes the sink is not asked.
pub fn put_all<K: Sink>(output: &mut K, bytes: &[u8]) -> Result<(), Failed>
    ensures all { OnOk result (Appended (K.held output.old) (K.held output.new) bytes.now) }
    ensures part { OnErr result (PrefixAdded (K.held output.old) (K.held output.new) bytes.now) }
    ensures failed { OnErr result (Rose (K.faults output.old) (K.faults output.new)) }
    ensures never_falls { K.faults output.old ≤ K.faults output.new }
    ensures untouched { bytes.now ≡ [] → output.new ≡ output.old }
{
    let mut at = 0;
    while at < bytes.len() {
        at += output.put(&bytes[at..])?;
    }
    Ok(())
}
