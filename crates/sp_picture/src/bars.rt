//! The bars of calls.

use crate::layout::Layout;
use crate::shown::{CallShown, reply_name};
use sp_machine::{Call, Finished};
use std::alloc::AllocError;

// Returns the kind of a call, which gives its bar a colour.
fn kind_of<const P: u32>(call: &Finished<P>) -> &'static str {
    match call.ended.call {
        Call::Offer { reply, .. } => reply_name(reply),
        Call::Read { .. } => "read",
    }
}

// Draws a bar from the call's first step to its last.
fn draw_bar<const P: u32>(
    text: &mut String,
    layout: &Layout,
    call: &Finished<P>,
) -> Result<(), AllocError> {
    let shown = CallShown { call: *call };
    let actor = call.ended.actor;
    let (first, last) = (call.first, call.last);
    let left = layout.across(first) - 13;
    let width = (layout.across(last) + 13).saturating_sub(left);
    let top = layout.actor_lane(actor) - 13;
    let kind = kind_of(call);
    write!(
        text,
        "<rect class='bar {kind}' x='{left}' y='{top}' width='{width}' height='26' rx='9'>"
    )?;
    writeln!(
        text,
        "<title>steps {first} to {last}: {shown}</title></rect>"
    )
}

/// Draws a bar for each call.
pub(crate) fn draw_bars<const P: u32>(
    text: &mut String,
    layout: &Layout,
    calls: &[Finished<P>],
) -> Result<(), AllocError> {
    for call in calls {
        draw_bar(text, layout, call)?;
    }
    Ok(())
}
