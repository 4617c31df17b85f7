//! What a report that is shown is of, as a law of every trace. The function has nothing to run.

ghost use Rattle.net_world.specs.Claims.{OfEachTrace};
ghost use Rattle.net_world.specs.Reported.{SentReportsWereMade};
ghost use Rattle.net_world.specs.Headline.{HeldReportsWereMade};

use crate::verdict::one_state_of_each_job;
use client_core::{packets_go_to_peers, reports_came};
use mirror_core::packets_go_to_the_client;
use server_core::{packets_go_to_client, reports_were_made};

/// Each report that was sent, and so each that the client holds, is one that a check of its server was
/// done with, in a full pass or with a state that was taken there, and since which no write was issued.
pub fn shown_reports_were_made()
    ensures sent { OfEachTrace SentReportsWereMade }
    ensures held { OfEachTrace HeldReportsWereMade }
{
    one_state_of_each_job();
    reports_were_made();
    reports_came();
    packets_go_to_client();
    packets_go_to_peers();
    packets_go_to_the_client();
}
