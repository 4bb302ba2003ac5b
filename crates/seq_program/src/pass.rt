//! What the lines of a text say, one after another, where its labels are known.

ghost use Rattle.std.specs.Prelude.{length, map, OnOk};
ghost use Rattle.seq_program.specs.Reading.{Gives};
ghost use Rattle.seq_program.specs.Passes.{after_instr, after_words, after_line};
ghost use Rattle.seq_program.specs.PassViews.{labels_view, pass_view, AreInstrsSoFar};

use crate::fault::ProgramFault;
use crate::instr::Instr;
use crate::labels::{Labels, is_first, label_in};
use crate::line::instr_of;
use crate::program::MOST_PLACES;
use board::Board;
use std::alloc::Global;
use texts::{without_comment, words_of};

/// The instructions so far, and the first line so far whose label stands nowhere.
#[derive(Drop)]
pub(crate) struct InstrsSoFar {
    pub instrs: Vec<Instr>,
    pub unknown: Option<usize>,
}

impl InstrsSoFar {
    /// An instruction more.
    #[tactic(auto, unfolding(crate::specs::Passes::after_instr))]
    fn add_instr(
        &mut self,
        alloc: Global,
        board: &Board,
        labels: &Labels,
        line: usize,
        word: &str,
        words: &[&str],
    ) -> Result<(), ProgramFault>
        requires said { AreInstrsSoFar (length board.now.targets)
            (labels_view labels.now) self.old }
        ensures said { OnOk result
            (AreInstrsSoFar (length board.now.targets) (labels_view labels.now) self.new) }
        ensures value { Gives (λ _. pass_view self.new) result
            (after_instr board.now (labels_view labels.now) line (pass_view self.old) word.now
            (map (λ w. w.now) words.now)) }
    {
        let said = instr_of(alloc, board, labels, line, word, words)?;
        if self.instrs.len() >= MOST_PLACES {
            return Err(ProgramFault::TooLong(line));
        }
        self.instrs.push(said.instr)?;
        if !said.is_known {
            self.unknown = Some(self.unknown.unwrap_or(line));
        }
        Ok(())
    }

    fn add_words(
        &mut self,
        alloc: Global,
        board: &Board,
        labels: &Labels,
        line: usize,
        words: &[&str],
    ) -> Result<(), ProgramFault>
        requires said { AreInstrsSoFar (length board.now.targets)
            (labels_view labels.now) self.old }
        ensures said { OnOk result
            (AreInstrsSoFar (length board.now.targets) (labels_view labels.now) self.new) }
        ensures value { Gives (λ _. pass_view self.new) result
            (after_words board.now (labels_view labels.now) line (pass_view self.old)
            (map (λ w. w.now) words.now)) }
    {
        match words {
            [] => Ok(()),
            [word, more @ ..] => match label_in(words) {
                Some(name) if is_first(labels, line, name) => Ok(()),
                Some(_) => Err(ProgramFault::SameLabel(line)),
                None => self.add_instr(alloc, board, labels, line, word, more),
            },
        }
    }

    /// What a line says.
    #[tactic(auto, unfolding(crate::specs::Passes::after_line))]
    pub(crate) fn add_line(
        &mut self,
        alloc: Global,
        board: &Board,
        labels: &Labels,
        number: usize,
        line: &str,
    ) -> Result<(), ProgramFault>
        requires said { AreInstrsSoFar (length board.now.targets)
            (labels_view labels.now) self.old }
        ensures said { OnOk result
            (AreInstrsSoFar (length board.now.targets) (labels_view labels.now) self.new) }
        ensures value { Gives (λ _. pass_view self.new) result
            (after_line board.now (labels_view labels.now) number (pass_view self.old)
            line.now) }
    {
        let words = words_of(alloc, without_comment(line))?;
        self.add_words(alloc, board, labels, number, &words)
    }
}
