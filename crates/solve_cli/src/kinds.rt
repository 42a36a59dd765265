//! The searches that a list of words names.
ghost use Rattle.std.specs.Prelude.{◌≡◌, ◌==◌, ◌≤◌, ◌<◌, ◌+◌, ◌++◌, Some, map, length, IfOk, IfErr, OnOk, codes, option_map, vec_len};
ghost use Rattle.std.specs.List.{slice_split};
ghost use Rattle.strategy.specs.KindWord.{is_word};
ghost use Rattle.solve_cli.specs.SearchList.{all_searches, searches_in, words_in, kinds_in, IsUnpushed, IsUnadded, IsUnnamed};

use crate::portfolio::MOST_SEARCHES;
use crate::search_kinds::SearchKind;
use std::alloc::{AllocError, Global};
use strategy::Kind;
use thiserror::Error;

/// A `SearchFault` is why words name no searches.
#[derive(Clone, Copy, Debug, PartialEq, Eq, Error)]
pub enum SearchFault<'a> {
    #[error("no search {0}")]
    Unknown(&'a str),
    #[error("more than {} searches", MOST_SEARCHES)]
    TooMany,
    #[error("no memory")]
    NoMemory,
}

/// A pass by each rule, the tree, which solves small projects, local search for large ones, and
/// proofs of what it finds.
const ALL: [SearchKind; 6] = [
    SearchKind::Planned(Kind::RuleLft),
    SearchKind::Planned(Kind::RuleMts),
    SearchKind::Planned(Kind::RuleSpt),
    SearchKind::Planned(Kind::Tree),
    SearchKind::Improve(1),
    SearchKind::Prove(100_000),
];

fn is_all(word: &str) -> bool
    ensures { result ≡ is_word word.now (codes "all") }
{
    word.as_bytes() == b"all".as_slice()
}

fn push_kinds(kinds: &mut Vec<SearchKind>, more: &[SearchKind]) -> Result<(), SearchFault<'static>>
    requires few { vec_len kinds.old ≤ MOST_SEARCHES }
    ensures added { OnOk result (kinds.new.items ≡ kinds.old.items ++ more.now) }
    ensures few { OnOk result (vec_len kinds.new ≤ MOST_SEARCHES) }
    ensures fault { IfErr result (λ fault. IsUnpushed fault (vec_len kinds.old + length more.now)) }
{
    if more.len() > MOST_SEARCHES - kinds.len() {
        return Err(SearchFault::TooMany);
    }
    match kinds.extend_from_slice(more) {
        Ok(()) => Ok(()),
        Err(_) => Err(SearchFault::NoMemory),
    }
}

fn push_word<'a>(kinds: &mut Vec<SearchKind>, word: &'a str) -> Result<(), SearchFault<'a>>
    requires few { vec_len kinds.old ≤ MOST_SEARCHES }
    ensures added { OnOk result (option_map (λ more. kinds.old.items ++ more) (searches_in word.now) ≡ Some kinds.new.items) }
    ensures few { OnOk result (vec_len kinds.new ≤ MOST_SEARCHES) }
    ensures fault { IfErr result (λ fault. IsUnadded fault (vec_len kinds.old) word.now) }
{
    if is_all(word) {
        return push_kinds(kinds, &ALL);
    }
    match SearchKind::parse(word) {
        Some(kind) => push_kinds(kinds, &[kind]),
        None => Err(SearchFault::Unknown(word)),
    }
}

fn parts_of(alloc: Global, words: &str) -> Result<Vec<&str>, AllocError>
    ensures { IfOk result (λ parts. map (λ part. part.now) parts.items ≡ words_in words.now) }
{
    words.split(',').collect(alloc)
}

/// The kinds of search that `words` name, with commas between them, in their order.
pub fn kinds_of(alloc: Global, words: &str) -> Result<Vec<SearchKind>, SearchFault<'_>>
    ensures kinds { IfOk result (λ kinds. Some kinds.items ≡ kinds_in words.now) }
    ensures few { IfOk result (λ kinds. vec_len kinds ≤ MOST_SEARCHES) }
    ensures fault { IfErr result (λ fault. IsUnnamed fault (words_in words.now)) }
{
    let Ok(parts) = parts_of(alloc, words) else {
        return Err(SearchFault::NoMemory);
    };
    let mut kinds = Vec::new(alloc);
    for word in parts.as_slice() {
        if let Err(fault) = push_word(&mut kinds, word) {
            return Err(fault);
        }
    }
    Ok(kinds)
}
