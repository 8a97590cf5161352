//! The line of a source and a target, with their result: the target's word, or the route to it.
ghost use Rattle.std.specs.Prelude.{◌≡◌, ◌+◌, ◌≤◌, ◌++◌, length, codes};
ghost use Rattle.sp_device.specs.Printing.{Sends};
ghost use Rattle.sp_text.specs.Numeral.{number_text};
ghost use Rattle.sp_answer.specs.Pair.{answer_of};
ghost use Rattle.sp_answer.specs.Routed.{routed_of};
ghost use Rattle.sp_files.specs.PairText.{found_text, none_text, pair_text, numbers_text, route_head, route_text, routed_text};

use crate::common_lines::{LINE_ROOM, push_far};
use sp_answer::{PairAnswer, RouteAnswer};
use sp_device::{Block, Printer, Write, make_room};
use sp_text::push_number;

#[tactic(auto, unfolding(crate::specs::PairText::found_text))]
fn push_found(block: &mut Block, source: u32, target: u32, dist: u64, pred: u32)
    requires { length block.old + LINE_ROOM ≤ 8192 }
    ensures { block.new ≡ block.old ++ found_text source target dist pred }
{
    block.push(b"d");
    push_number(block, source as u64);
    push_number(block, target as u64);
    push_number(block, dist);
    push_number(block, pred as u64);
    block.push(b"\n");
}

#[tactic(auto, unfolding(crate::specs::PairText::none_text))]
fn push_none(block: &mut Block, source: u32, target: u32)
    requires { length block.old + LINE_ROOM ≤ 8192 }
    ensures { block.new ≡ block.old ++ none_text source target }
{
    block.push(b"n");
    push_number(block, source as u64);
    push_number(block, target as u64);
    block.push(b"\n");
}

fn push_pair(block: &mut Block, pair: (u32, u32), answer: PairAnswer)
    requires { length block.old + LINE_ROOM ≤ 8192 }
    ensures { block.new ≡ block.old ++ pair_text pair (answer_of answer) }
{
    let (source, target) = pair;
    match answer {
        PairAnswer::Found { dist, pred } => push_found(block, source, target, dist, pred),
        PairAnswer::TooFar(vertex) => push_far(block, source, vertex),
        PairAnswer::NoWalk => push_none(block, source, target),
    }
}

/// Sends the line of a source and a target, with their result.
pub fn send_pair<W: Write>(out: &mut W, printer: &mut Printer, pair: (u32, u32), answer: PairAnswer)
    ensures { Sends W.Write (pair_text pair (answer_of answer))
        out.old printer.old out.new printer.new }
{
    make_room(out, printer, LINE_ROOM);
    push_pair(&mut printer.block, pair, answer);
}

// Appends the beginning of the line of a route.
fn push_route_head(block: &mut Block, pair: (u32, u32), dist: u64)
    requires { length block.old + LINE_ROOM ≤ 8192 }
    ensures { block.new ≡ block.old ++ route_head pair.0 pair.1 dist }
{
    block.push(b"r");
    push_number(block, pair.0 as u64);
    push_number(block, pair.1 as u64);
    push_number(block, dist);
}

// Sends the beginning of the line of a route.
fn send_route_head<W: Write>(out: &mut W, printer: &mut Printer, pair: (u32, u32), dist: u64)
    ensures { Sends W.Write (route_head pair.0 pair.1 dist)
        out.old printer.old out.new printer.new }
{
    make_room(out, printer, LINE_ROOM);
    push_route_head(&mut printer.block, pair, dist);
}

// Sends a space and a vertex.
fn send_vertex<W: Write>(out: &mut W, printer: &mut Printer, vertex: u32)
    ensures { Sends W.Write (number_text vertex) out.old printer.old out.new printer.new }
{
    make_room(out, printer, LINE_ROOM);
    push_number(&mut printer.block, vertex as u64);
}

// Sends vertices, with a space before each. Since there may be any number of them, room is made for each.
fn send_vertices<W: Write>(out: &mut W, printer: &mut Printer, vertices: &[u32])
    ensures { Sends W.Write (numbers_text vertices.now) out.old printer.old out.new printer.new }
{
    for vertex in vertices {
        send_vertex(out, printer, *vertex);
    }
}

// Sends the end of a line.
fn send_line_end<W: Write>(out: &mut W, printer: &mut Printer)
    ensures { Sends W.Write (codes "\n") out.old printer.old out.new printer.new }
{
    make_room(out, printer, LINE_ROOM);
    printer.block.push(b"\n");
}

// Sends the line of a route.
fn send_found_route<W: Write>(
    out: &mut W,
    printer: &mut Printer,
    pair: (u32, u32),
    dist: u64,
    route: &[u32],
)
    ensures { Sends W.Write (route_text pair.0 pair.1 dist route.now)
        out.old printer.old out.new printer.new }
{
    send_route_head(out, printer, pair, dist);
    send_vertices(out, printer, route);
    send_line_end(out, printer);
}

/// Sends the line of a source and a target, with the route between them. It allocates no memory, however long the route is.
pub fn send_route<W: Write>(
    out: &mut W,
    printer: &mut Printer,
    pair: (u32, u32),
    answer: &RouteAnswer,
)
    ensures { Sends W.Write (routed_text pair (routed_of answer.now))
        out.old printer.old out.new printer.new }
{
    match answer {
        RouteAnswer::Found { dist, route } => send_found_route(out, printer, pair, *dist, route),
        RouteAnswer::TooFar(vertex) => send_pair(out, printer, pair, PairAnswer::TooFar(*vertex)),
        RouteAnswer::NoWalk => send_pair(out, printer, pair, PairAnswer::NoWalk),
    }
}
