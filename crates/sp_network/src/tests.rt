//! The files of one graph, in both forms.
ghost use Rattle.std.specs.Prelude.{◌≤◌, ◌^◌, length};

use crate::{Direction, GrFile, Network, NetworkFault, read_network};
use sp_device::{Peeked, UpTo};
use sp_graph::Graph;
use sp_packed::{PackedFault, PackedField, PackedKind};
use sp_paths::Arc;
use sp_text::{DimacsError, Kind};
use sp_word::{Alone, Workers};
use std::alloc::{AllocError, Global};
use std::test::Fail;
use std::thread::Threads;

// An arc by its tail, its head and its length.
type Triple = (u32, u32, u32);

// The words of the graph whose arcs are (1, 2, 3), (1, 3, 3), (2, 4, 2), (3, 4, 2), (1, 4, 6).
const WORDS: [u32; 23] = [
    0x5450_5389,
    0x011A_0A0D,
    4,
    5,
    0,
    3,
    4,
    5,
    5,
    2,
    3,
    3,
    3,
    4,
    6,
    4,
    2,
    4,
    2,
    0x556A_5DD1,
    0,
    0x55CA_EA2C,
    6,
];

const LINES: &[u8] = b"p sp 4 5\na 1 2 3\na 1 3 3\na 2 4 2\na 3 4 2\na 1 4 6\n";

// The bytes of words, the lowest of each first.
fn bytes_of(alloc: Global, words: &[u32]) -> Result<Vec<u8>, AllocError> {
    let mut bytes = Vec::new(alloc);
    for word in words {
        bytes.extend_from_slice(&word.to_le_bytes())?;
    }
    Ok(bytes)
}

// Returns the result of reading a device whose text has its arcs in this direction.
fn read_directed<R: Threads + Sync>(
    rt: &R,
    alloc: Global,
    device: UpTo,
    direction: Direction,
) -> Result<Network, NetworkFault> {
    let mut peeked = Peeked::new(device);
    read_network::<28, _, _>(
        &Alone::new(rt),
        alloc,
        &mut peeked,
        Workers::one(),
        direction,
    )
}

// Does the same for arcs that lead one way.
fn read<R: Threads + Sync>(rt: &R, alloc: Global, device: UpTo) -> Result<Network, NetworkFault> {
    read_directed(rt, alloc, device, Direction::AsGiven)
}

// Returns the result of reading only the first of these bytes.
fn read_front<R: Threads + Sync>(
    rt: &R,
    alloc: Global,
    bytes: &[u8],
    count: usize,
) -> Result<Network, NetworkFault>
    requires within { count ≤ length bytes.now }
    requires short { count ≤ 2 ^ 62 }
{
    read(rt, alloc, UpTo::whole(&bytes[..count]))
}

// Returns whether these are the arcs of the graph, in any order.
fn is_graph(told: Result<Network, NetworkFault>) -> bool {
    let arcs = [(1, 2, 3), (1, 3, 3), (2, 4, 2), (3, 4, 2), (1, 4, 6)];
    match told {
        Ok(network) => {
            let file = network.into_file();
            file.n == 4
                && file.arcs.len() == 5
                && arcs.iter().all(|(tail, head, len)| {
                    let arc = Arc {
                        tail: *tail,
                        head: *head,
                        len: *len,
                    };
                    file.arcs.contains(&arc)
                })
        }
        Err(_) => false,
    }
}

// Returns the network of `n` vertices with these arcs.
fn network_of(alloc: Global, n: u32, triples: &[Triple]) -> Result<Network, AllocError> {
    let mut arcs = Vec::new(alloc);
    for triple in triples {
        let (tail, head, len) = *triple;
        arcs.push(Arc { tail, head, len })?;
    }
    Ok(Network::of_lines(GrFile { n, arcs }))
}

// Returns whether the file has `n` vertices and exactly these arcs, in this order.
fn has(file: &GrFile, n: u32, want: &[Triple]) -> bool {
    file.n == n
        && file.arcs.len() == want.len()
        && file
            .arcs
            .iter()
            .zip(want)
            .all(|(arc, want)| (arc.tail, arc.head, arc.len) == *want)
}

// Returns whether the graph of a text, read in this direction, has four vertices and exactly these arcs, in this order.
fn leads<R: Threads + Sync>(
    rt: &R,
    alloc: Global,
    device: UpTo,
    direction: Direction,
    want: &[Triple],
) -> bool {
    match read_directed(rt, alloc, device, direction) {
        Ok(network) => match direction.apply(rt, network, Workers::one()) {
            Ok(made) => has(&made.into_file(), 4, want),
            Err(_) => false,
        },
        Err(_) => false,
    }
}

// The fault of a text.
fn at_line(line: u64, kind: Kind) -> Option<NetworkFault> {
    Some(NetworkFault::Text(DimacsError { line, kind }))
}

// The fault of a packed text.
fn at_byte(at: u64, kind: PackedKind) -> Option<NetworkFault> {
    Some(NetworkFault::Packed(PackedFault { at, kind }))
}

#[test]
fn one_graph_in_both_forms(rt: HostRuntime) -> Result<(), Fail> {
    let alloc = rt.alloc();
    let words = bytes_of(alloc, &WORDS)?;
    assert!(rt; words.len() == 92);
    for most in [1, 2, 100] {
        let packed = is_graph(read(&rt, alloc, UpTo::in_pieces(&words, most)));
        assert!(rt; packed);
        let lines = is_graph(read(&rt, alloc, UpTo::in_pieces(LINES, most)));
        assert!(rt; lines);
    }
    Ok(())
}

// Builds the graph of a text. Returns `None` if its network or its memory is refused.
fn built<R: Threads + Sync>(rt: &R, alloc: Global, device: UpTo) -> Option<Graph> {
    let mut peeked = Peeked::new(device);
    let network = read_network::<28, _, _>(
        &Alone::new(rt),
        alloc,
        &mut peeked,
        Workers::one(),
        Direction::AsGiven,
    )
    .ok()?;
    network.build(rt, alloc, Workers::one()).ok()
}

// Returns whether the built graph has these arcs, in order, and 6 is the greatest length.
fn is_built(graph: Option<Graph>) -> bool {
    let Some(graph) = graph else {
        return false;
    };
    let arcs = [(1, 2, 3), (1, 3, 3), (1, 4, 6), (2, 4, 2), (3, 4, 2)];
    graph.n() == 4
        && graph.m() == 5
        && graph.longest() == 6
        && graph
            .arcs()
            .iter()
            .zip(&arcs)
            .all(|(arc, want)| (arc.tail, arc.head, arc.len) == *want)
        && graph.row(4).is_empty()
        && graph.row(1).len() == 3
}

#[test]
fn graphs_of_both_forms(rt: HostRuntime) -> Result<(), Fail> {
    let alloc = rt.alloc();
    let words = bytes_of(alloc, &WORDS)?;
    assert!(rt; words.len() == 92);
    let packed = is_built(built(&rt, alloc, UpTo::whole(&words)));
    assert!(rt; packed);
    let lines = is_built(built(&rt, alloc, UpTo::whole(LINES)));
    assert!(rt; lines);
    Ok(())
}

#[test]
fn faults_of_either_form(rt: HostRuntime) -> Result<(), Fail> {
    let alloc = rt.alloc();
    let empty = read(&rt, alloc, UpTo::whole(b"")).err();
    assert!(rt; empty == at_line(1, Kind::NoProblem));
    let words = bytes_of(alloc, &WORDS)?;
    assert!(rt; words.len() == 92);
    let cut = read_front(&rt, alloc, &words, 50).err();
    assert!(rt; cut == at_byte(48, PackedKind::TooFew));
    let mut more = bytes_of(alloc, &WORDS)?;
    assert!(rt; more.len() == 92);
    more.push(0)?;
    let long = read(&rt, alloc, UpTo::whole(&more)).err();
    assert!(rt; long == at_byte(92, PackedKind::TooMany));
    Ok(())
}

#[test]
fn failing_devices(rt: HostRuntime) -> Result<(), Fail> {
    let alloc = rt.alloc();
    let words = bytes_of(alloc, &WORDS)?;
    assert!(rt; words.len() == 92);
    let at_once = read(&rt, alloc, UpTo::failing(b"")).err();
    assert!(rt; at_once == at_line(1, Kind::Read));
    let behind_one = read(&rt, alloc, UpTo::failing(&words[..1])).err();
    assert!(rt; behind_one == at_byte(0, PackedKind::Read));
    let behind_letter = read(&rt, alloc, UpTo::failing(b"p")).err();
    assert!(rt; behind_letter == at_line(1, Kind::Read));
    Ok(())
}

#[test]
fn numbers_of_arcs(rt: HostRuntime) -> Result<(), Fail> {
    let alloc = rt.alloc();
    let many = b"p sp 1 536870913\n";
    let one = read_directed(&rt, alloc, UpTo::whole(many), Direction::AsGiven).err();
    assert!(rt; one == at_line(2, Kind::TooFew));
    let both = read_directed(&rt, alloc, UpTo::whole(many), Direction::BothWays).err();
    assert!(rt; both == at_line(1, Kind::OutOfRange(b'M')));
    let words = bytes_of(alloc, &[0x5450_5389, 0x011A_0A0D, 1, 536_870_913, 0])?;
    assert!(rt; words.len() == 20);
    let packed = read_directed(&rt, alloc, UpTo::whole(&words), Direction::AsGiven).err();
    assert!(rt; packed == at_byte(20, PackedKind::TooFew));
    let packed_both = read_directed(&rt, alloc, UpTo::whole(&words), Direction::BothWays).err();
    assert!(rt; packed_both == at_byte(12, PackedKind::OutOfRange(PackedField::Arcs)));
    Ok(())
}

#[test]
fn arcs_in_each_direction(rt: HostRuntime) -> Result<(), Fail> {
    let alloc = rt.alloc();
    let arcs = [(1, 2, 3), (1, 3, 3), (2, 4, 2), (3, 4, 2), (1, 4, 6)];
    let given = Direction::AsGiven
        .apply(&rt, network_of(alloc, 4, &arcs)?, Workers::one())?
        .into_file();
    assert!(rt; has(&given, 4, &arcs));
    let round = [(2, 1, 3), (3, 1, 3), (4, 2, 2), (4, 3, 2), (4, 1, 6)];
    let towards = Direction::Towards
        .apply(&rt, network_of(alloc, 4, &arcs)?, Workers::one())?
        .into_file();
    assert!(rt; has(&towards, 4, &round));
    let all = [
        (1, 2, 3),
        (2, 1, 3),
        (1, 3, 3),
        (3, 1, 3),
        (2, 4, 2),
        (4, 2, 2),
        (3, 4, 2),
        (4, 3, 2),
        (1, 4, 6),
        (4, 1, 6),
    ];
    let both = Direction::BothWays
        .apply(&rt, network_of(alloc, 4, &arcs)?, Workers::one())?
        .into_file();
    assert!(rt; has(&both, 4, &all));
    Ok(())
}

#[test]
fn loops_and_no_arcs_in_each_direction(rt: HostRuntime) -> Result<(), Fail> {
    let alloc = rt.alloc();
    let once = Direction::Towards
        .apply(&rt, network_of(alloc, 1, &[(1, 1, 5)])?, Workers::one())?
        .into_file();
    assert!(rt; has(&once, 1, &[(1, 1, 5)]));
    let twice = Direction::BothWays
        .apply(&rt, network_of(alloc, 1, &[(1, 1, 5)])?, Workers::one())?
        .into_file();
    assert!(rt; has(&twice, 1, &[(1, 1, 5), (1, 1, 5)]));
    let none = Direction::BothWays
        .apply(&rt, network_of(alloc, 1, &[])?, Workers::one())?
        .into_file();
    assert!(rt; has(&none, 1, &[]));
    Ok(())
}

#[test]
fn files_in_each_direction(rt: HostRuntime) -> Result<(), Fail> {
    let alloc = rt.alloc();
    let words = bytes_of(alloc, &WORDS)?;
    assert!(rt; words.len() == 92);
    let round = [(2, 1, 3), (3, 1, 3), (4, 1, 6), (4, 2, 2), (4, 3, 2)];
    let towards = leads(&rt, alloc, UpTo::whole(&words), Direction::Towards, &round);
    assert!(rt; towards);
    let all = [
        (1, 2, 3),
        (2, 1, 3),
        (1, 3, 3),
        (3, 1, 3),
        (1, 4, 6),
        (4, 1, 6),
        (2, 4, 2),
        (4, 2, 2),
        (3, 4, 2),
        (4, 3, 2),
    ];
    let both = leads(&rt, alloc, UpTo::whole(&words), Direction::BothWays, &all);
    assert!(rt; both);
    let of_lines = [(2, 1, 3), (3, 1, 3), (4, 2, 2), (4, 3, 2), (4, 1, 6)];
    let lines = leads(
        &rt,
        alloc,
        UpTo::whole(LINES),
        Direction::Towards,
        &of_lines,
    );
    assert!(rt; lines);
    Ok(())
}
