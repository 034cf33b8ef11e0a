//! What `books` prints as JSON.

ghost use Rattle.std.specs.Prelude.{◌≡◌, IfOk};
ghost use Rattle.cdc_commands.specs.BookReports.{IsBooksOf};
ghost use Rattle.cdc_output.specs.Lines.{json_lines};
ghost use Rattle.cdc_commands.specs.JsonReports.{books_values};
ghost use Rattle.cdc_script.specs.declared.scripts.Script.{Script as Parsed};

use super::batches::push_answers;
use crate::book_reports::BooksReport;
use cdc_output::{Lines, push_subscribers};
use std::alloc::{AllocError, Global};

/// The lines of a script's batches and of its subscribers.
pub(crate) fn books_lines(alloc: Global, report: &BooksReport) -> Result<Lines, AllocError>
    ensures { (script : Parsed) → IsBooksOf script report.now
        → IfOk result (λ lines. lines.text.items ≡ json_lines (books_values script)) }
{
    let mut lines = Lines::new(alloc);
    push_answers(alloc, &mut lines, report.answers.as_slice())?;
    push_subscribers(alloc, &mut lines, report.subscribers.as_slice())?;
    Ok(lines)
}
