ghost use Rattle.std.specs.Prelude.{◌≡◌, ◌++◌, ◌∷◌, [], IfOk, OnOk};
ghost use Rattle.jr_crew_books.specs.Accounts.{AreMethodsOf};

use crate::book::push;
use jr_model::{Memory, Method};
use jr_plan::{Plan, SubJob};
use std::alloc::Global;

// How the blocks of each clone of a plan are made and verified.
pub(crate) fn methods_of(alloc: Global, plan: &Plan) -> Result<Vec<Method>, Memory>
    ensures { IfOk result (λ methods. AreMethodsOf plan.now methods.items) }
{
    let mut methods = Vec::new(alloc);
    for clone in 0..plan.clones() {
        add_method(&mut methods, plan.clone_at(clone))?;
    }
    Ok(methods)
}

// Adds that of this clone.
fn add_method(methods: &mut Vec<Method>, clone: &SubJob) -> Result<(), Memory>
    ensures { OnOk result (methods.new.items ≡ methods.old.items ++ clone.now.method ∷ []) }
{
    let method = clone.method();
    // The prover hears of the pattern's type by this.
    let _ = &method.pattern;
    push(methods, method)
}
