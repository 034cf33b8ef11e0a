//! The pictures of a simulation, as files.

use crate::diagnostics::report_unwritten;
use crate::observers::Pictures;
use cdc_app_inputs::Escaped;
use cdc_arguments::Diagnostics;
use cdc_diagnostics::Observed;
use cdc_page::{Frame, Labels, simulation_page};
use cdc_page_frame::{AFTER, BEFORE, STYLE};
use std::fs;

/// Writes the page and the drawing that are asked for, and reports a write that failed. `name` is the name of the script,
/// and `observed` has the trace.
pub(crate) fn write_pictures(
    rt: &HostRuntime,
    name: &str,
    window: usize,
    pictures: &Pictures,
    observed: &Observed,
    diagnostics: Diagnostics<'_>,
) {
    if let Some(out) = diagnostics.svg {
        write_picture(rt, out, pictures.second.drawing(rt.alloc(), STYLE));
    }
    let Some(out) = diagnostics.page else {
        return;
    };
    let frame = Frame {
        before: BEFORE,
        after: AFTER,
    };
    let refusal = match &observed.refusal {
        Some(refused) => refused.why.as_str(),
        None => "",
    };
    let labels = Labels {
        name,
        refusal,
        trace: observed.trace.as_str(),
        window,
    };
    write_picture(
        rt,
        out,
        simulation_page(rt.alloc(), frame, labels, &pictures.first),
    );
}

/// Writes a picture to the file of this name. `None` is one that memory ran out for.
fn write_picture(rt: &HostRuntime, out: &str, picture: Option<Vec<u8>>) {
    match picture {
        Some(text) => report_unwritten(rt, out, fs::write(rt, out, text.as_slice())),
        None => {
            let out = Escaped(out);
            let _ = eprintln!(rt; "{out}: out_of_memory: nothing is written");
        }
    }
}
