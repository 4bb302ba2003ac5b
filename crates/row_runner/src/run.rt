//! What the items of the input ask for, one after the other.

use crate::case::Ran;
use crate::item::{Item, first_item};
use crate::named_texts::Texts;
use crate::report::Report;
use crate::row_file::run_file;
use std::alloc::{AllocError, Global};

/// What is known after some items: the texts that rows may name, the case that ran last, and what
/// came out.
#[derive(Drop)]
struct Run<'a> {
    texts: Texts<'a>,
    case: Option<Ran>,
    report: Report,
}

impl<'a> Run<'a> {
    fn new(alloc: Global) -> Run<'a> {
        Run {
            texts: Texts::new(alloc),
            case: None,
            report: Report::new(alloc),
        }
    }

    fn take_case(&mut self, alloc: Global, item: Item<'a>) -> Result<(), AllocError> {
        self.case = None;
        match Ran::of(alloc, item)? {
            Some(ran) => {
                self.case = Some(ran);
                Ok(())
            }
            None => self.report.fail_at(alloc, item.name, 0, "no answer"),
        }
    }

    fn compare(&mut self, alloc: Global, item: Item<'a>) -> Result<(), AllocError> {
        match &self.case {
            Some(ran) => ran.compare(alloc, item, &mut self.report),
            None => self.report.fail_at(alloc, item.name, 0, "no case above"),
        }
    }

    fn take(&mut self, alloc: Global, item: Item<'a>) -> Result<(), AllocError> {
        match item.kind {
            "text" => self.texts.keep(alloc, item),
            "rows" => run_file(alloc, &self.texts, item, &mut self.report),
            "case" => self.take_case(alloc, item),
            _ => self.compare(alloc, item),
        }
    }
}

/// Runs all items of an input.
pub(crate) fn run_items(alloc: Global, input: &[u8]) -> Result<Report, AllocError> {
    let mut run = Run::new(alloc);
    let mut rest = input;
    for _ in 0..input.len() {
        if rest.is_empty() {
            break;
        }
        let Some((item, below)) = first_item(rest) else {
            run.report
                .fail("the input has a part that can't be read\n")?;
            break;
        };
        run.take(alloc, item)?;
        rest = below;
    }
    Ok(run.report)
}
