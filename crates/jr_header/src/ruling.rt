ghost use Rattle.std.specs.Prelude.{◌≡◌, true, false, length};
ghost use Rattle.jr_model.specs.declared.events.Verdict.TheVariants.{Good};
ghost use Rattle.jr_model.specs.Judgement.{AreasToldApart};
ghost use Rattle.jr_model.specs.Legal.{is_void};
ghost use Rattle.jr_header.specs.Served.{ticket_content, ticket_expected, is_to_judge, answer_verdict};

use crate::judgement::verdict;
use crate::served::Served;
use jr_model::Verdict;
use std::marker::Model;

/// The verdict on a check, or a checked read, that ended whole. Only `rule` makes it. Contracts see the answer that was judged.
#[derive(Drop)]
pub struct Ruling<'a> {
    served: &'a Served,
    verdict: Verdict,
}

impl<'a> Model for Ruling<'a> {
    ghost use Rattle.jr_engines.specs.Answers.{AnswerParts};
    ghost use Rattle.jr_header.specs.Served.{IsRuled};

    ghost Value = { AnswerParts };

    ghost view = { λ r. r.served.now };

    ghost invariant = { λ r. IsRuled r.served.now r.verdict };
}

impl<'a> Ruling<'a> {
    /// What was judged.
    pub fn served(&self) -> &'a Served
        ensures value { result.now ≡ self.now }
        ensures to_judge { is_to_judge self.now ≡ true }
        ensures room { length self.now.bytes ≡ self.now.ticket.piece.len }
    {
        let _ = &self.verdict;
        self.served
    }

    /// What is said of its bytes: they are good or bad.
    pub fn verdict(&self) -> Verdict
        ensures value { result ≡ answer_verdict self.now }
        ensures speaks { is_void result ≡ false }

        // Where the ticket expects what its write put there, these bytes are good, and no others are.
        ensures good { self.now.ticket.expected ≡ ticket_expected self.now.ticket
            → self.now.bytes ≡ ticket_content self.now.ticket → result ≡ Good }
        ensures no_others { let t = self.now.ticket in t.expected ≡ ticket_expected t
            → AreasToldApart t.method t.piece t.seed self.now.bytes
            → result ≡ Good → self.now.bytes ≡ ticket_content t }
    {
        self.verdict
    }
}

/// Judges a check, or a checked read, that ended whole: its bytes against what its ticket expects, or else against what they say of
/// themselves.
pub fn rule(served: &Served) -> Ruling<'_>
    requires { is_to_judge served.now ≡ true }
    ensures { result ≡ served.now }
{
    let verdict = verdict(served.ticket(), served.bytes(), served.is_own());
    Ruling { served, verdict }
}
