//! What observes a simulation.

use crate::diagnostics::asked;
use cdc_arguments::Diagnostics;
use cdc_deliveries::{Both, Recorder};
use cdc_diagnostics::Observation;
use cdc_drawing::DrawingRecorder;
use cdc_page::PageRecorder;

/// What observes a simulation: the steps of deliveries, the texts that are asked for, and the pictures.
pub type Observers<'a> = Both<Recorder, Both<Observation<'a>, Pictures>>;

/// What draws a simulation: the data of a page, and the rows of a drawing.
pub type Pictures = Both<PageRecorder, DrawingRecorder>;

/// Observers of a simulation of the script of this name, which have seen nothing.
pub(crate) fn observers_of<'a>(
    rt: &HostRuntime,
    name: &'a str,
    diagnostics: Diagnostics<'_>,
) -> Observers<'a> {
    Both {
        first: Recorder::new(rt.alloc()),
        second: Both {
            first: Observation::new(rt.alloc(), name, asked(diagnostics)),
            second: Both {
                first: PageRecorder::new(rt.alloc(), diagnostics.page.is_some()),
                second: DrawingRecorder::new(diagnostics.svg.is_some()),
            },
        },
    }
}
