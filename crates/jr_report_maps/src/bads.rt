ghost use Rattle.std.specs.Prelude.{◌≡◌, ◌++◌, IfOk, OnOk, filter_map, map};
ghost use Rattle.std.specs.Option.{option_map, option_to_list};
ghost use Rattle.jr_model.specs.History.{started};
ghost use Rattle.jr_model.specs.Report.{miscompare_by, miscompare_on, miscompares};
ghost use Rattle.jr_desk_totals.specs.Bads.{miscompare_of};

use jr_desk_totals::Bad;
use jr_model::{Event, Memory, Started, Verdict};
use jr_replay_history::started;
use std::alloc::Global;

/// The bad verdicts of a history, in the order in which they were given.
pub fn bads_of(alloc: Global, history: &[Event]) -> Result<Vec<Bad>, Memory>
    ensures { IfOk result (λ bads. map miscompare_of bads.items ≡ miscompares history.now) }
{
    let ios = started(alloc, history)?;
    bads_among(alloc, ios.as_slice(), history)
}

// Those of these events, where these I/Os and checks were started.
fn bads_among(alloc: Global, ios: &[Started], events: &[Event]) -> Result<Vec<Bad>, Memory>
    ensures { IfOk result (λ bads. map miscompare_of bads.items ≡ filter_map (miscompare_by ios.now) events.now) }
{
    let mut bads = Vec::new(alloc);
    for event in events {
        add_if(&mut bads, bad_verdict_in(ios, event))?;
    }
    Ok(bads)
}

// The bad verdict that the event is, if it is one.
fn bad_verdict_in(ios: &[Started], event: &Event) -> Option<Bad>
    ensures { option_map miscompare_of result ≡ miscompare_by ios.now event.now }
{
    match *event {
        Event::Verdict { io, verdict, .. } => bad_on(ios.get(io as usize).copied(), verdict),
        _ => None,
    }
}

fn bad_on(io: Option<Started>, verdict: Verdict) -> Option<Bad>
    ensures { option_map miscompare_of result ≡ miscompare_on io verdict }
{
    match (io, verdict) {
        (Some(io), Verdict::Bad(what)) => Some(Bad {
            write: io.write,
            piece: io.piece,
            what,
        }),
        _ => None,
    }
}

fn add_if(bads: &mut Vec<Bad>, bad: Option<Bad>) -> Result<(), Memory>
    ensures { OnOk result (map miscompare_of bads.new.items
        ≡ map miscompare_of bads.old.items ++ option_to_list (option_map miscompare_of bad)) }
{
    if let Some(bad) = bad {
        bads.push(bad)?;
    }
    Ok(())
}
