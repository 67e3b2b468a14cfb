//! Laws on the grammar of the whole format, over all texts and modules. Each is the contract of a
//! function that does nothing.
ghost use Rattle.gu_syntax.specs.Laws.{OneModule, EncodingSpells, SpelledIsShaped};
ghost use Rattle.gu_syntax.specs.Laws.{ModuleAgain, ModuleTaken, StopsInside};
ghost use Rattle.gu_syntax.specs.Laws.{RefusedIsUnspelled, MalformedIsUnspelled, OutsideIsUnspelled};
ghost use Rattle.gu_syntax.specs.Laws.{ShallowIsRead, ReadIsShallow, DeepIsUnspelled};
ghost use Rattle.gu_syntax.specs.Laws.{GroupsAgain, GroupsTaken, GroupsRefused, GroupsStopInside};
ghost use Rattle.gu_syntax.specs.Laws.{EntryAgain, ShallowEntryAgain, EntryTaken, ReadEntryNests};
ghost use Rattle.gu_syntax.specs.Laws.{EntryRefused, EntryStopsInside};

/// A text spells at most one module, and the encoding of every module that is short enough to be
/// written spells it.
pub fn one_reading()
    ensures one { OneModule }
    ensures least { EncodingSpells }
{}

/// The decoding functions read a module from exactly the texts that spell it, where enough blocks may
/// be open, and stop within all others.
pub fn decoding_reads_modules()
    ensures again { ModuleAgain }
    ensures taken { ModuleTaken }
    ensures inside { StopsInside }
{}

/// What a text spells has names in UTF-8, merged runs of locals, and numbers of their types, where the
/// merged runs are of lengths that the tree can hold.
pub fn spelled_is_shaped()
    ensures { SpelledIsShaped }
{}

/// A text that is refused spells no module, but that its blocks may be too deep; and the modules that
/// are read are those whose blocks are not too deep.
pub fn refused_is_unspelled()
    ensures refused { RefusedIsUnspelled }
    ensures malformed { MalformedIsUnspelled }
    ensures outside { OutsideIsUnspelled }
    ensures deep { DeepIsUnspelled }
    ensures read { ShallowIsRead }
    ensures shallow { ReadIsShallow }
{}

/// The recursion groups of a type section are read from exactly the texts that begin with them, and
/// reading passes the bytes that spell them (core specification 3.0, 5.5.4 Type Section). It stops
/// within all other texts.
pub fn type_sections_are_read()
    ensures again { GroupsAgain }
    ensures taken { GroupsTaken }
    ensures refused { GroupsRefused }
    ensures inside { GroupsStopInside }
{}

/// A code entry is read from exactly the texts that begin with it, where enough blocks may be open,
/// and reading passes the bytes that spell it (core specification 3.0, 5.5.13 Code Section). It stops
/// within all others, and within an entry exactly where that opens a block too deep.
pub fn code_entries_are_read()
    ensures again { EntryAgain }
    ensures shallow { ShallowEntryAgain }
    ensures taken { EntryTaken }
    ensures nests { ReadEntryNests }
    ensures refused { EntryRefused }
    ensures inside { EntryStopsInside }
{}
