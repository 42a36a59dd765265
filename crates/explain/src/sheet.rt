//! A project's file, line by line and row by row.
use crate::head::{JOBS, NONRENEWABLE, RENEWABLE, count_of};
use crate::lines::{Piece, lines_of};
use crate::rows::{FileRow, modes_of, precedence_rows, request_rows};
use crate::sections::{head_of, section};
use psplib_mm::SectionName;
use std::alloc::{AllocError, Global};

#[derive(Drop)]
pub(crate) struct Sheet<'a> {
    pub(crate) lines: Vec<Piece<'a>>,
    /// The lines above the first title.
    pub(crate) head: Vec<Piece<'a>>,
    pub(crate) precedence: Vec<Piece<'a>>,
    pub(crate) requests: Vec<Piece<'a>>,
    pub(crate) availabilities: Vec<Piece<'a>>,
    /// The rows of `precedence`.
    pub(crate) jobs: Vec<FileRow>,
    /// The rows of `requests`.
    pub(crate) modes: Vec<FileRow>,
    pub(crate) resources: usize,
}

fn resources_of(head: &[Piece<'_>]) -> usize {
    let count = count_of(head, RENEWABLE).saturating_add(count_of(head, NONRENEWABLE));
    usize::try_from(count).unwrap_or(usize::MAX)
}

pub(crate) fn sheet_of(alloc: Global, text: &[u8]) -> Result<Sheet<'_>, AllocError> {
    let lines = lines_of(alloc, text)?;
    let mut head = Vec::new(alloc);
    head.extend_from_slice(head_of(&lines))?;
    let precedence = section(alloc, &lines, SectionName::PrecedenceRelations)?;
    let requests = section(alloc, &lines, SectionName::RequestsDurations)?;
    let availabilities = section(alloc, &lines, SectionName::ResourceAvailabilities)?;
    let resources = resources_of(&head);
    let jobs = precedence_rows(alloc, &precedence, count_of(&head, JOBS))?;
    let counts = modes_of(alloc, &precedence, &jobs)?;
    let modes = request_rows(alloc, &requests, &counts, resources)?;
    Ok(Sheet {
        lines,
        head,
        precedence,
        requests,
        availabilities,
        jobs,
        modes,
        resources,
    })
}
