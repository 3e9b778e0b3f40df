//! Configurations as text: `0:3` is thread 0 at location 3, `2/0/1` is atom 2 of the threads 0 and 1.
use ps_atom::{Atom, Threads};
use ps_config::Config;
use std::alloc::{AllocError, Global};

/// The lists of a configuration.
#[derive(Drop)]
pub struct Lists {
    pub at: Vec<(u32, u32)>,
    pub atoms: Vec<Atom>,
}

pub fn number(text: &str) -> u32 {
    text.parse::<u32>().unwrap_or(u32::MAX)
}

pub fn numbers(alloc: Global, text: &str, between: char) -> Result<Vec<u32>, AllocError> {
    let mut all = Vec::new(alloc);
    for part in text.split(between) {
        all.push(number(part))?;
    }
    Ok(all)
}

fn atom(alloc: Global, text: &str) -> Result<Atom, AllocError> {
    let all = numbers(alloc, text, '/')?;
    let predicate = all.as_slice().first().copied().unwrap_or(0);
    let mut threads = Threads::new(alloc);
    for thread in all.as_slice().iter().skip(1) {
        threads.push(*thread)?;
    }
    Ok(Atom { predicate, threads })
}

pub fn read_lists(alloc: Global, text: &str) -> Result<Lists, AllocError> {
    let mut at = Vec::new(alloc);
    let mut atoms = Vec::new(alloc);
    for word in text.split_whitespace() {
        match word.split_once(':') {
            Some((thread, location)) => at.push((number(thread), number(location)))?,
            None => atoms.push(atom(alloc, word)?)?,
        }
    }
    Ok(Lists { at, atoms })
}

pub fn config_of(lists: Lists) -> Option<Config> {
    let Lists { at, atoms } = lists;
    if Config::is_in_form(at.as_slice(), atoms.as_slice()) {
        return Some(Config::new(at, atoms));
    }
    None
}

pub fn config(alloc: Global, text: &str) -> Result<Option<Config>, AllocError> {
    Ok(config_of(read_lists(alloc, text)?))
}
