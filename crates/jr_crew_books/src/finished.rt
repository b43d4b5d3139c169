ghost use Rattle.std.specs.Prelude.{◌≡◌, true, IsTrue};
ghost use Rattle.jr_model.specs.Legal.{is_legal};
ghost use Rattle.jr_crew_books.specs.Finished.{AllFinished};

use crate::account::Account;

/// Whether nothing is in flight any more, and each check that ended whole has its verdict.
pub fn all_finished(account: &Account<'_>) -> bool
    requires { is_legal account.now.plan account.now.history ≡ true }
    ensures { IsTrue result → AllFinished account.now.history }
{
    for id in 0..account.count() {
        match u32::try_from(id) {
            Ok(id) if account.is_finished(id) => {}
            _ => return false,
        }
    }
    true
}
