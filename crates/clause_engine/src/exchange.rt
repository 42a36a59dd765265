//! Clauses that searches of one formula tell each other (Hamadi, Jabbour and Sais 2009).
use crate::engine::Engine;
use clause_kernel::{Formula, Kernel, Lemma};
use clause_store::arena::{LEARNED, NO_CLAUSE};
use clause_store::trail::{FALSE, OPEN, Trail};
use std::alloc::{AllocError, Global};
use std::mem;

/// A `Message` is a lemma with the number of levels of its literals where it was learned.
#[derive(Drop)]
pub struct Message<F: Formula> {
    pub lemma: Lemma<F>,
    pub glue: u32,
}

/// A learned clause that other searches receive.
#[derive(Clone, Copy)]
struct News {
    number: u32,
    glue: u32,
}

/// An `Exchange` is what a search has learned since it last sent its clauses.
#[derive(Drop)]
pub struct Exchange {
    alloc: Global,
    /// The most levels of a clause that is sent; 0 sends nothing.
    most_glue: u32,
    /// Learned clauses that no reduction has met yet.
    news: Vec<News>,
    /// The place of the trail before which literals of level 0 were sent.
    told: usize,
}

impl Exchange {
    pub fn new(alloc: Global) -> Exchange {
        Exchange {
            alloc,
            most_glue: 0,
            news: Vec::new(alloc),
            told: 0,
        }
    }

    /// From now on sends clauses of at most `glue` levels.
    pub fn tell_up_to(&mut self, glue: u32) {
        self.most_glue = glue;
    }

    pub fn note(&mut self, number: u32, glue: u32) -> Result<(), AllocError> {
        if glue <= self.most_glue {
            self.news.push(News { number, glue })?;
        }
        Ok(())
    }

    /// Forgets what was not sent yet: from now on the numbers may be those of other clauses.
    pub fn clear(&mut self) {
        self.news.clear();
    }

    fn tell_units<F: Formula>(
        &mut self,
        trail: &Trail,
        kernel: &Kernel<F>,
        messages: &mut Vec<Message<F>>,
    ) -> Result<(), AllocError> {
        for place in self.told..trail.root_count() {
            let Some(lemma) = kernel.unit(trail.at(place))? else {
                break;
            };
            messages.push(Message { lemma, glue: 1 })?;
            self.told = place + 1;
        }
        Ok(())
    }

    /// What was learned since the last call.
    pub fn tell<F: Formula>(
        &mut self,
        trail: &Trail,
        kernel: &Kernel<F>,
    ) -> Result<Vec<Message<F>>, AllocError> {
        let mut messages = Vec::new(self.alloc);
        if self.most_glue > 0 {
            self.tell_units(trail, kernel, &mut messages)?;
        }
        let news = mem::replace(&mut self.news, Vec::new(self.alloc));
        for News { number, glue } in news {
            if let Some(lemma) = kernel.lemma(number)? {
                messages.push(Message { lemma, glue })?;
            }
        }
        Ok(messages)
    }
}

impl Engine {
    /// Puts the literals that are open at level 0 first. Returns how many there are, or `None` if
    /// a literal is true.
    fn arrange(&self, clause: &mut [u32]) -> Option<usize> {
        let mut count = 0usize;
        for place in 0..clause.len() {
            let value = self.trail.value(clause[place]);
            if value == OPEN && count <= place {
                clause.swap(count, place);
                count += 1;
            } else if value != FALSE {
                return None;
            }
        }
        Some(count)
    }

    /// Adds a clause that the kernel has taken, at level 0. Its first `count` literals are open, the
    /// others false.
    fn add_told<F: Formula>(
        &mut self,
        kernel: &mut Kernel<F>,
        message: &Message<F>,
        clause: &[u32],
        count: usize,
    ) -> Result<(), AllocError> {
        let number = kernel.accept(&message.lemma)?;
        let first = clause.first().copied().unwrap_or(0);
        if clause.len() < 2 {
            if count == 1 {
                self.assign_settled(first);
            }
            return Ok(());
        }
        let place = self.arena.push(clause, LEARNED, message.glue, number)?;
        if place == NO_CLAUSE {
            self.forget(kernel, number);
            return Ok(());
        }
        self.learned.push(place)?;
        self.watches.attach(&self.arena, place)?;
        match count {
            0 => self.refute(kernel, place)?,
            1 => self.trail.assign(first, place),
            _ => {}
        }
        Ok(())
    }

    /// Takes what another search of the formula has learned. The next step is one of level 0.
    pub fn take<F: Formula>(
        &mut self,
        kernel: &mut Kernel<F>,
        message: &Message<F>,
    ) -> Result<(), AllocError> {
        self.backtrack(0)?;
        let mut clause = Vec::with_capacity(self.alloc, message.lemma.clause.len())?;
        clause.extend_from_slice(&message.lemma.clause)?;
        if let Some(count) = self.arrange(&mut clause) {
            self.settle(kernel)?;
            self.add_told(kernel, message, &clause, count)?;
        }
        Ok(())
    }
}
