//! Functions, and what their locals weigh for the limits on them, added up as the functions are read.
ghost use Rattle.std.specs.Prelude.{◌≡◌, [], ◌∷◌, ◌++◌, length, sum_by, IfOk, OnOk};
ghost use Rattle.gu_read.specs.Limits.{locals_of};
ghost use Rattle.gu_read.specs.Rows.{capped, weight, weight_in};

use gu_syntax::{Body, Func, Module};
use gu_types::{List, ShortList};
use std::alloc::{AllocError, Global};
use std::marker::Model;

/// More locals than all functions may have. No weight is counted past it.
const TOO_HEAVY: u64 = 4_000_001;

/// Functions and their weight: what their locals come to, as far as one more than all functions may
/// have, which one function weighs that has too many. Contracts see the list of functions.
#[derive(Debug, Drop)]
pub struct WeighedFuncs {
    funcs: Vec<Func>,
    weight: u64,
}

impl Model for WeighedFuncs {
    ghost use Rattle.std.specs.Prelude.{◌≡◌, List};
    ghost use Rattle.std.specs.Coded.{coded_list};
    ghost use Rattle.gu_syntax.specs.declared.module.Func.{Func as Function};
    ghost use Rattle.gu_syntax.specs.contracts.module.Func as function;
    ghost use Rattle.gu_read.specs.Rows.{weight_in};

    ghost Value = { List Function };

    ghost coded = { coded_list function.the_row.coded };

    ghost view = { λ weighed. weighed.funcs.items };

    ghost invariant = { λ weighed. weighed.weight ≡ weight_in weighed.funcs.items };
}

impl WeighedFuncs {
    /// No functions. It takes no memory.
    pub fn new(alloc: Global) -> WeighedFuncs
        ensures { result ≡ [] }
    {
        WeighedFuncs {
            funcs: Vec::new(alloc),
            weight: 0,
        }
    }

    /// No functions, with room for so many.
    pub fn with_room(alloc: Global, room: usize) -> Result<WeighedFuncs, AllocError>
        ensures { IfOk result (λ weighed. weighed ≡ []) }
    {
        let funcs = Vec::with_capacity(alloc, room)?;
        Ok(WeighedFuncs { funcs, weight: 0 })
    }

    /// No functions, with room for so many that the system has given already.
    pub fn with_touched_room(alloc: Global, room: usize) -> Result<WeighedFuncs, AllocError>
        ensures { IfOk result (λ weighed. weighed ≡ []) }
    {
        let mut funcs = Vec::with_capacity(alloc, room)?;
        'touched: for _ in 0..room {
            let code = List::new(alloc);
            let locals = ShortList::new(alloc);
            let body = Body { code };
            funcs.push(Func {
                ty: 0,
                locals,
                body,
            })?;
        }
        funcs.clear();
        Ok(WeighedFuncs { funcs, weight: 0 })
    }

    /// How many functions there are.
    pub fn len(&self) -> usize
        ensures { result ≡ length self.now }
    {
        self.funcs.len()
    }

    /// Puts a function at the end.
    pub fn push(&mut self, func: Func) -> Result<(), AllocError>
        ensures { OnOk result (self.new ≡ self.old ++ func ∷ []) }
    {
        let more = weigh(&func);
        self.funcs.push(func)?;
        self.weight = (self.weight + more).min(TOO_HEAVY);
        Ok(())
    }

    /// Puts other functions behind these.
    pub fn append(&mut self, others: WeighedFuncs) -> Result<(), AllocError>
        ensures { OnOk result (self.new ≡ self.old ++ others) }
    {
        let WeighedFuncs { mut funcs, weight } = others;
        self.funcs.append(&mut funcs)?;
        self.weight = (self.weight + weight).min(TOO_HEAVY);
        Ok(())
    }

    /// The functions and their weight. It takes no memory.
    pub fn into_parts(self) -> (List<Func>, u64)
        ensures funcs { result.0 ≡ self }
        ensures weight { result.1 ≡ weight_in self }
    {
        let WeighedFuncs { funcs, weight } = self;
        (List::from_vec(funcs), weight)
    }
}

/// A module and the weight of its functions. Contracts see the module.
#[derive(Debug, Drop)]
pub struct WeighedModule {
    module: Module,
    weight: u64,
}

impl Model for WeighedModule {
    ghost use Rattle.std.specs.Prelude.{◌≡◌};
    ghost use Rattle.gu_syntax.specs.declared.module.Module.{Module as Whole};
    ghost use Rattle.gu_syntax.specs.contracts.module.Module as whole;
    ghost use Rattle.gu_read.specs.Rows.{weight_in};

    ghost Value = { Whole };

    ghost coded = { whole.the_row.coded };

    ghost view = { λ weighed. weighed.module };

    ghost invariant = { λ weighed. weighed.weight ≡ weight_in weighed.module.funcs };
}

impl WeighedModule {
    /// A module with the weight of its functions.
    pub fn new(whole: Module, weight: u64) -> WeighedModule
        requires { weight ≡ weight_in whole.funcs }
        ensures { result ≡ whole }
    {
        WeighedModule {
            module: whole,
            weight,
        }
    }

    /// The module.
    pub fn get(&self) -> &Module
        ensures { result.now ≡ self.now }
    {
        &self.module
    }

    /// The weight of its functions.
    pub fn weight(&self) -> u64
        ensures { result ≡ weight_in self.now.funcs }
    {
        self.weight
    }

    /// The module.
    pub fn into_module(self) -> Module
        ensures { result ≡ self }
    {
        let WeighedModule { module, .. } = self;
        module
    }
}

/// How many locals a function has, or more than all functions may have where it has too many.
fn weigh(func: &Func) -> u64
    ensures { result ≡ weight (locals_of func.now) }
{
    let count = locals_up_to(func);
    if 50_000 < count {
        return TOO_HEAVY;
    }
    count as u64
}

/// The locals of a function, or 50,001 where there are more.
pub fn locals_up_to(func: &Func) -> usize
    ensures { result ≡ capped (locals_of func.now) }
{
    let mut count = 0;
    let runs = func.locals.as_slice();
    'runs: for run in runs {
        count += run.0 as usize;
        if 50_000 < count {
            return 50_001;
        }
    }
    count
}
