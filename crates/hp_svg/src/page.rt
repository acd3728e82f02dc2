//! The lines of a trace within the viewer.
ghost use Rattle.std.specs.Prelude.{◌++◌, ◌≡◌, IfOk, OnOk, string_bytes};
ghost use Rattle.hp_svg.specs.Pages.{viewer_after, viewer_before, viewer_drawing, viewer_rules};

use crate::viewer::{BODY, END, HEAD, MACHINE, MIDDLE, PANELS, STYLE, TRACE, WORDS};
use std::alloc::{AllocError, Global};

/// Returns the page that steps through a trace: the viewer, and in it the lines of JSON as they
/// are. The page uses no network and no library. No line may contain `<`, which could end the
/// element that holds the lines.
pub fn page_of(alloc: Global, lines: &str) -> Result<String, AllocError>
    ensures { IfOk result (λ page. string_bytes page ≡ viewer_before ++ lines.now ++ viewer_after) }
{
    let mut page = String::new(alloc);
    write_before(&mut page)?;
    page.push_str(lines)?;
    write_after(&mut page)?;
    Ok(page)
}

/// Writes the viewer up to the lines.
#[tactic(auto, unfolding(crate::specs::Pages::viewer_before))]
fn write_before(page: &mut String) -> Result<(), AllocError>
    ensures { OnOk result (string_bytes page.new ≡ string_bytes page.old ++ viewer_before) }
{
    write_three(page, HEAD, STYLE, BODY)
}

/// Writes the viewer from the lines on.
#[tactic(auto, unfolding(crate::specs::Pages::viewer_after))]
fn write_after(page: &mut String) -> Result<(), AllocError>
    ensures { OnOk result (string_bytes page.new ≡ string_bytes page.old ++ viewer_after) }
{
    write_rules(page)?;
    write_drawing(page)
}

/// Writes the viewer's code that reads the lines.
#[tactic(auto, unfolding(crate::specs::Pages::viewer_rules))]
fn write_rules(page: &mut String) -> Result<(), AllocError>
    ensures { OnOk result (string_bytes page.new ≡ string_bytes page.old ++ viewer_rules) }
{
    write_three(page, MIDDLE, TRACE, WORDS)
}

/// Writes the viewer's code that draws the trace, and the end of the page.
#[tactic(auto, unfolding(crate::specs::Pages::viewer_drawing))]
fn write_drawing(page: &mut String) -> Result<(), AllocError>
    ensures { OnOk result (string_bytes page.new ≡ string_bytes page.old ++ viewer_drawing) }
{
    write_three(page, MACHINE, PANELS, END)
}

/// Writes three texts.
fn write_three(page: &mut String, first: &str, second: &str, third: &str) -> Result<(), AllocError>
    ensures { OnOk result
        (string_bytes page.new ≡ string_bytes page.old ++ first.now ++ second.now ++ third.now) }
{
    page.push_str(first)?;
    page.push_str(second)?;
    page.push_str(third)
}
