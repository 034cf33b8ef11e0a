//! What `follow` prints without its saves and its book.

use crate::forms::{FollowForm, push_stop};
use crate::json_lines::{push_followed, push_stop as push_stop_json};
use cdc_follow::{Counts, Follower, Stop};
use cdc_output::{Json, Lines, Text};
use cdc_streams::Quiet;
use std::alloc::{AllocError, Global};

impl FollowForm for Quiet<Text> {
    ghost use Rattle.std.specs.Prelude.{[]};
    ghost use Rattle.cdc_follow_command.specs.Quiet.{quiet_text};

    ghost prints_save = { λ _ _. [] };

    ghost prints_end = { λ _. quiet_text };

    fn save(&self, alloc: Global, _counts: Counts, _timestamp: u64) -> Result<Vec<u8>, AllocError> {
        Ok(Vec::new(alloc))
    }

    fn end(
        &self,
        alloc: Global,
        _counts: Counts,
        follower: &Follower,
        stop: Stop,
    ) -> Result<Vec<u8>, AllocError> {
        let mut text = Vec::new(alloc);
        push_stop(&mut text, follower.seen(), stop)?;
        Ok(text)
    }
}

impl FollowForm for Quiet<Json> {
    ghost use Rattle.std.specs.Prelude.{[]};
    ghost use Rattle.cdc_follow_command.specs.Quiet.{quiet_lines};

    ghost prints_save = { λ _ _. [] };

    ghost prints_end = { quiet_lines };

    fn save(&self, alloc: Global, _counts: Counts, _timestamp: u64) -> Result<Vec<u8>, AllocError> {
        Ok(Lines::new(alloc).into_text())
    }

    fn end(
        &self,
        alloc: Global,
        counts: Counts,
        follower: &Follower,
        stop: Stop,
    ) -> Result<Vec<u8>, AllocError> {
        let mut lines = Lines::new(alloc);
        push_stop_json(alloc, &mut lines, follower.seen(), stop)?;
        push_followed(alloc, &mut lines, counts)?;
        Ok(lines.into_text())
    }
}
