//! Minimal hitting sets, and what falls when nodes are withdrawn.
use ps_case::{number_and_rest, word};
use ps_drop::{Pair, descendants, leaning};
use ps_hit::{Hits, minimal_hits};
use ps_list::Sequence;
use ps_text::{put_digits, put_natural, put_word};
use std::alloc::{AllocError, Global};

/// The minimal hitting sets of sets of digits, each of which ends with a semicolon, by a copy: the input is how many there may
/// be at the most, and the sets.
pub fn minimal(alloc: Global, input: &[u8]) -> Result<Vec<u8>, AllocError> {
    let (most, sets) = number_and_rest(input)?;
    let sets = sets_of(alloc, sets)?;
    let hits = minimal_hits(alloc, sets.as_slice(), most)?;
    shown(alloc, &hits.copy(alloc)?)
}

fn sets_of(alloc: Global, text: &[u8]) -> Result<Vec<Vec<u32>>, AllocError> {
    let mut sets = Vec::new(alloc);
    let mut set = Vec::new(alloc);
    for byte in text {
        if *byte == b';' {
            sets.push(set)?;
            set = Vec::new(alloc);
        } else {
            set.push(u32::from(byte.saturating_sub(b'0')))?;
        }
    }
    Ok(sets)
}

fn shown(alloc: Global, hits: &Hits) -> Result<Vec<u8>, AllocError> {
    match hits {
        Hits::All(lists) => shown_lists(alloc, lists.as_slice()),
        Hits::TooMany => word(alloc, "too many"),
    }
}

fn shown_lists(alloc: Global, lists: &[Sequence<u32>]) -> Result<Vec<u8>, AllocError> {
    let mut text = word(alloc, "sets:")?;
    for list in lists {
        for number in list.as_slice() {
            put_digits(&mut text, u128::from(*number))?;
        }
        put_word(&mut text, b";")?;
    }
    Ok(text)
}

/// A node and all below it: the input is the node, and pairs `CHILD-PARENT`.
pub fn below(alloc: Global, input: &[u8]) -> Result<Vec<u8>, AllocError> {
    let (node, pairs) = number_and_rest(input)?;
    let pairs = pairs_of(alloc, pairs)?;
    shown_nodes(
        alloc,
        descendants(alloc, pairs.as_slice(), u64::from(node))?.as_slice(),
    )
}

/// The nodes that lean on dropped ones: the input is the dropped ones, `|`, and pairs `NODE-LINK`.
pub fn leans(alloc: Global, input: &[u8]) -> Result<Vec<u8>, AllocError> {
    let (dropped, pairs) = ps_text::cut(input, b'|').ok_or(AllocError)?;
    let dropped = nodes_of(alloc, dropped)?;
    let pairs = pairs_of(alloc, pairs)?;
    shown_nodes(
        alloc,
        leaning(alloc, pairs.as_slice(), dropped.as_slice())?.as_slice(),
    )
}

fn nodes_of(alloc: Global, text: &[u8]) -> Result<Vec<u64>, AllocError> {
    let text = str::from_utf8(text).ok().ok_or(AllocError)?;
    let mut nodes = Vec::new(alloc);
    for node in text.split_whitespace() {
        nodes.push(node.parse::<u64>().ok().ok_or(AllocError)?)?;
    }
    Ok(nodes)
}

fn pairs_of(alloc: Global, text: &[u8]) -> Result<Vec<Pair>, AllocError> {
    let text = str::from_utf8(text).ok().ok_or(AllocError)?;
    let mut pairs = Vec::new(alloc);
    for pair in text.split_whitespace() {
        pairs.push(pair_of(pair)?)?;
    }
    Ok(pairs)
}

fn pair_of(text: &str) -> Result<Pair, AllocError> {
    let (node, other) = text.split_once('-').ok_or(AllocError)?;
    Ok(Pair {
        node: node.parse::<u64>().ok().ok_or(AllocError)?,
        other: other.parse::<u64>().ok().ok_or(AllocError)?,
    })
}

fn shown_nodes(alloc: Global, nodes: &[u64]) -> Result<Vec<u8>, AllocError> {
    let mut text = word(alloc, "nodes")?;
    for node in nodes {
        put_natural(&mut text, u128::from(*node))?;
    }
    Ok(text)
}
