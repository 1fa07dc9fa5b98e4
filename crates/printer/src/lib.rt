// A printed page of an accepted image: 02, R-1. A row for each start.
#![tactic(auto)]

mod rows;

ghost use Rattle.std.specs.Prelude.{◌≡◌, Ok, length};
ghost use Rattle.reports.specs.PrintedPage.{page_text, printed_by, printed, page_after, page_printed};
ghost use Rattle.acceptance.specs.Verdict.{IsAccepted};
ghost use Rattle.printer.specs.Printable.{Printable};

use crate::rows::{ROW_SIZE, put_rows};
use places::place::Marks;
use types::refusals::{Refusal, Refused};
use view::View;

// Prints the rows of an accepted image with so many starts, where the page has room for them.
fn print_rows(view: View, starts: usize, page: &mut [u8]) -> Result<usize, Refused>
    requires { Printable view.image.now view.marks.now view.base starts }
    ensures answer { result
        ≡ printed_by (Ok tt) (length (page_text view.entry.image.now view.entry.marks.now view.entry.base))
        (length page.old) }
    ensures page { page.new
        ≡ page_after result (page_text view.entry.image.now view.entry.marks.now view.entry.base) page.old }
{
    let size = starts * ROW_SIZE;
    if page.len() < size {
        return Err(Refused {
            why: Refusal::Page,
            offset: 0,
        });
    }
    let marks = Marks {
        bytes: view.marks,
        base: view.base,
    };
    put_rows(page, view.image, &marks);
    Ok(size)
}

// Prints the rows of an image at the front of a page. Asks that the check accepted it, for callers who have its answer.
pub fn print_accepted(
    image: &[u8],
    marks: &[u8],
    base: u32,
    page: &mut [u8],
) -> Result<usize, Refused>
    requires { IsAccepted image.now marks.now base }
    ensures answer { result
        ≡ printed_by (Ok tt) (length (page_text image.now marks.now base))
        (length page.old) }
    ensures page { page.new
        ≡ page_after result (page_text image.now marks.now base) page.old }
{
    let view = View { image, marks, base };
    print_rows(view, view.count_starts(), page)
}

// Prints the rows of any image at the front of a page. It is judged, and the room tested, before the first byte is
// written.
#[tactic(auto, using(crate::proofs::Printing::printable, std::proofs::lemmas::Grind::common_steps), unfolding(reports::specs::PrintedPage::printed, reports::specs::PrintedPage::page_printed, reports::specs::PrintedPage::printed_by, reports::specs::PrintedPage::page_after))]
pub fn print(
    image: &[u8],
    marks: &[u8],
    base: u32,
    reset: u32,
    page: &mut [u8],
) -> Result<usize, Refused>
    ensures answer { result ≡ printed image.now marks.now base reset page.old }
    ensures page { page.new ≡ page_printed image.now marks.now base reset page.old }
{
    let view = View { image, marks, base };
    view.check(reset)?;
    print_rows(view, view.count_starts(), page)
}
