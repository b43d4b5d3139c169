ghost use Rattle.std.specs.Prelude.{◌≡◌, ◌≤◌, ◌+◌, ◌++◌, ◌||◌, ℕ, map, filter_map, option_to_list, IfOk, OnOk};
ghost use Rattle.std.specs.List.{list_any};
ghost use Rattle.std.specs.List.Sorted.{IsNonDecreasingBy};
ghost use Rattle.jr_desk_totals.specs.Bads.{miscompare_of};
ghost use Rattle.jr_report_maps.specs.BadBlocks.{is_bad_block};
ghost use Rattle.jr_report_maps.specs.Spans.{span_bytes};
ghost use Rattle.jr_report_maps.specs.Sweeps.{bytes_of, is_over};
ghost use Rattle.jr_report_maps.specs.WrongBlocks.{faulty_piece, faulty_pieces, is_faulty_block, piece_of, AreWrongBlocks};
ghost use Rattle.jr_report_maps.specs.declared.spans.Span.{Span as Place};

use crate::blocks::{blocks_of, spans_of};
use crate::spans::{Span, whole};
use jr_desk_totals::Bad;
use jr_model::{Event, Memory, Piece, SECTOR, Started};
use jr_plan::Plan;
use jr_replay_history::{is_fault, started};
use std::alloc::Global;

/// The numbers of the blocks of a file that bad verdicts are over, and those of the I/Os and checks that failed or ended short, counted from the
/// start of the file. A block has `size` bytes; the file is given by its place in the plan.
pub fn wrong_blocks(
    alloc: Global,
    plan: &Plan,
    history: &[Event],
    bads: &[Bad],
    file: u32,
    size: u64,
) -> Result<Vec<u64>, Memory>
    requires { SECTOR ≤ size }
    ensures { IfOk result (λ blocks. AreWrongBlocks plan.now history.now (map miscompare_of bads.now) file size blocks.items) }
{
    let spans = wrong_by_offset(alloc, plan, history, bads)?;
    blocks_of(alloc, spans.as_slice(), file, size)
}

// The bytes that bad verdicts are over, and those of I/Os that failed, by their offsets.
fn wrong_by_offset(
    alloc: Global,
    plan: &Plan,
    history: &[Event],
    bads: &[Bad],
) -> Result<Vec<Span>, Memory>
    ensures same { IfOk result (λ spans. (file size block : ℕ) → list_any (is_over file size block) spans.items
        ≡ (is_bad_block plan.now (map miscompare_of bads.now) file size block || is_faulty_block history.now file size block)) }
    ensures ascending { IfOk result (λ spans. IsNonDecreasingBy (λ (span : Place). span.offset + span.skip) spans.items) }
{
    let mut spans = wrong_spans(alloc, plan, history, bads)?;
    spans.sort_unstable_by_key(|span| u128::from(span.offset) + u128::from(span.skip));
    Ok(spans)
}

fn wrong_spans(
    alloc: Global,
    plan: &Plan,
    history: &[Event],
    bads: &[Bad],
) -> Result<Vec<Span>, Memory>
    ensures { IfOk result (λ spans. map span_bytes spans.items ≡ map (bytes_of plan.now) bads.now ++ faulty_pieces history.now) }
{
    let mut spans = spans_of(alloc, plan, bads)?;
    let ios = started(alloc, history)?;
    add_faulty(&mut spans, ios.as_slice(), history)?;
    Ok(spans)
}

// Adds the bytes of the I/Os that failed, where these are started.
fn add_faulty(spans: &mut Vec<Span>, ios: &[Started], history: &[Event]) -> Result<(), Memory>
    ensures { OnOk result (map span_bytes spans.new.items
        ≡ map span_bytes spans.old.items ++ filter_map (faulty_piece ios.now) history.now) }
{
    for event in history {
        add_fault(spans, faulty_piece(ios, event))?;
    }
    Ok(())
}

fn add_fault(spans: &mut Vec<Span>, piece: Option<Piece>) -> Result<(), Memory>
    ensures { OnOk result (map span_bytes spans.new.items ≡ map span_bytes spans.old.items ++ option_to_list piece) }
{
    if let Some(piece) = piece {
        spans.push(whole(&piece))?;
    }
    Ok(())
}

// The piece of the I/O that the event ends with a fault, where these are started.
fn faulty_piece(ios: &[Started], event: &Event) -> Option<Piece>
    ensures { result ≡ faulty_piece ios.now event.now }
{
    match *event {
        Event::End { io, outcome, .. } if is_fault(outcome) => {
            piece_of(ios.get(io as usize).copied())
        }
        _ => None,
    }
}

fn piece_of(io: Option<Started>) -> Option<Piece>
    ensures { result ≡ piece_of io }
{
    match io {
        None => None,
        Some(io) => Some(io.piece),
    }
}
