//! Finds where a command was given a number that isn't a vertex of the graph.
use crate::announced::announced_vertices;
use crate::fields::Fields;
use sp_command::{Commands, FileKind, Hint, Inputs, Naming, option_for};
use sp_device::Read;
use sp_dimacs::Lines;

/// Returns the second line about a source or a target that isn't a vertex of the graph. A word for places may select a
/// part of the sources.
pub fn vertex_hint<'a, C: Commands<'a>, F: Inputs>(
    vertex: u32,
    list: FileKind,
    command: &C,
    places: Option<&str>,
    files: &F,
) -> Hint<'a> {
    Hint::Vertex {
        naming: naming_of(vertex, list, command, places, files),
        vertex,
        vertices: vertices_in(command.path(FileKind::Graph), files),
    }
}

/// Returns the number of vertices of a graph, if the graph can be read again: the one in its line `p sp N M`, or the
/// one that it announces as a packed graph.
pub fn vertices_in<F: Inputs>(graph: Option<&str>, files: &F) -> Option<u64> {
    let path = graph?;
    match announced_vertices(files.open_again(path)?) {
        Some(vertices) => Some(vertices),
        None => vertices_of_text(files.open_again(path)?),
    }
}

// Returns the number of vertices in the line `p sp N M` of a text.
fn vertices_of_text<R: Read + Drop>(file: R) -> Option<u64> {
    let mut lines = Lines::new(file);
    for _ in 0..u64::MAX {
        let fields = Fields::of(lines.next().ok()??);
        match (fields.at(0), fields.at(1)) {
            ("p", "sp") => return fields.number(2),
            ("c" | "", _) => {}
            _ => return None,
        }
    }
    None
}

// Returns where the command was given the number.
fn naming_of<'a, C: Commands<'a>, F: Inputs>(
    vertex: u32,
    list: FileKind,
    command: &C,
    places: Option<&str>,
    files: &F,
) -> Naming<'a> {
    if let Some(path) = command.path(FileKind::Pairs) {
        return naming_pair(vertex, path, files).unwrap_or(unseen(list));
    }
    let first = match list {
        FileKind::Sources => places.and_then(first_place).unwrap_or(1),
        _ => 1,
    };
    let Some(path) = command.path(list) else {
        return option_for(list).map_or(unseen(list), Naming::Option);
    };
    match (line_of(vertex, path, first, files), list) {
        (Some(line), FileKind::Sources) => Naming::Source { path, line },
        (Some(line), _) => Naming::Target { path, line },
        (None, _) => unseen(list),
    }
}

// Returns where the command was given a number, if its file can't be read again.
fn unseen<'a>(list: FileKind) -> Naming<'a> {
    match list {
        FileKind::Targets => Naming::UnseenTarget,
        _ => Naming::Unseen,
    }
}

// Returns the first place of `A-B`.
fn first_place(word: &str) -> Option<u64> {
    word.split_once('-')?.0.parse().ok()
}

// Finds the first line of a file of pairs that names the number. This is the line of the first refused pair. The source
// of a pair is tested before its target.
fn naming_pair<'a, F: Inputs>(vertex: u32, path: &'a str, files: &F) -> Option<Naming<'a>> {
    let mut lines = Lines::new(files.open_again(path)?);
    for line in 1..u64::MAX {
        let fields = Fields::of(lines.next().ok()??);
        if fields.at(0) != "q" {
            continue;
        }
        if fields.number(1) == Some(u64::from(vertex)) {
            return Some(Naming::Source { path, line });
        }
        if fields.number(2) == Some(u64::from(vertex)) {
            return Some(Naming::Target { path, line });
        }
    }
    None
}

// Finds the first line of a list of sources or targets that names the number, from this place of the list on.
fn line_of<F: Inputs>(vertex: u32, path: &str, first: u64, files: &F) -> Option<u64> {
    let mut lines = Lines::new(files.open_again(path)?);
    let mut place = 0u64;
    for line in 1..u64::MAX {
        let fields = Fields::of(lines.next().ok()??);
        if fields.at(0) != "s" {
            continue;
        }
        place = place.saturating_add(1);
        if place >= first && fields.number(1) == Some(u64::from(vertex)) {
            return Some(line);
        }
    }
    None
}
