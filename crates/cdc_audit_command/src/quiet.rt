//! What `audit` prints without its saves.

use crate::forms::AuditForm;
use cdc_audit::AuditStop;
use cdc_streams::Quiet;
use cdc_subscriber::Subscriber;
use std::alloc::{AllocError, Global};

impl<F: AuditForm> AuditForm for Quiet<F> {
    ghost prints_audit = { F.prints_audit };

    fn audit(
        &self,
        alloc: Global,
        shows: bool,
        skipped: Option<u64>,
        subscriber: &Subscriber,
        stop: AuditStop,
    ) -> Result<Vec<u8>, AllocError> {
        self.form.audit(alloc, shows, skipped, subscriber, stop)
    }
}
