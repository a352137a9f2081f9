//! Cases that are worked out by hand, of a small group whose data count its commits: each clause is computed by the check.
#![tactic(auto, unfolding(access_handshake::specs::Accsec::accsecrd_chosen, access_handshake::specs::Accsec::accsecrd_offer, access_handshake::specs::Excsat::excsat_answer, access_handshake::specs::Parameter::parameter, ddm_codepoints::specs::Character::ebcdic_of, ddm_codepoints::specs::Character::ascii_of, ddm_codepoints::specs::CodeClass::class_of, ddm_codepoints::specs::TypDef::typdef_of, ddm_objects::specs::Members::members_within, ddm_objects::specs::Objects::extent_at, ddm_objects::specs::Objects::object_at, ddm_objects::specs::Objects::first_object, dss_frame::specs::Dss::further, dss_frame::specs::Dss::canonical, reply_texts::specs::Closing::limit_reply, reply_texts::specs::Reply::abnuow_object, reply_texts::specs::Reply::cmdnsp_object, reply_texts::specs::Reply::prccnv_object, reply_texts::specs::Sqlcard::sqlcard_object, unit_segments::specs::Accepts::sets_only, unit_segments::specs::Registers::with_set, unit_segments::specs::Registers::with_sets, unit_segments::specs::Release::kept_within, unit_segments::specs::Segment::segments_of, unit_segments::specs::Spelling::chain_bytes, unit_segments::specs::Spelling::join, unit_segments::specs::Statement::statement_of, unit_segments::specs::Strip::stripped, crate::specs::Local::local_answer, crate::specs::Local::answered_locally, crate::specs::Core::settle_segments, crate::specs::Begun::begun, crate::specs::Answered::answered, crate::specs::Lost::lost, crate::specs::Lost::accepted, crate::specs::Lost::none_left,))]

ghost use Rattle.std.specs.Prelude.{true, false, Some, None, [], ◌∷◌, ◌++◌, replicate};
ghost use Rattle.plain_model.specs.Begun.{Chain};
ghost use Rattle.plain_model.specs.Plain.{Begin, Sent, Run, Answer, Lose, RunLate, Accept, NoneLeft};
ghost use Rattle.plain_model.specs.Told.{Committed, RolledBack, ToldRerouted, ToldUnknown};
ghost use Rattle.plain_model.specs.Example.{access, begins, one_command, runs, insert, set, open_cursor, commit, roll_back};
ghost use Rattle.plain_model.specs.Example.{greeting, welcome, done, unit_ended, rerouted, unknown, ended, ended_unknown, no_access_left};
ghost use Rattle.plain_model.specs.Example.{Comes, unknown_first, excsat_second, cmdnsp_reply, excsat_reply, prccnv_reply, sets_done};
ghost use Rattle.plain_model.specs.Example.{set_at_sample, done_twice};

/// Units that end as they are asked to.
pub fn units_that_end()
    ensures committed { Comes (access ++ runs insert ++ runs commit) (welcome ++ done ++ unit_ended 1) 1 (Some Committed) 1 0 2 }
    ensures rolled_back { Comes (access ++ runs insert ++ runs roll_back) (welcome ++ done ++ unit_ended 2) 0 (Some RolledBack) 0 0 2 }
{}

/// A conversation is lost before its unit has answered anything, and behind an answer that can't be run again.
pub fn losses_of_work()
    ensures unanswered { Comes (access ++ Begin (Chain (insert ∷ [])) ∷ Sent ∷ Lose ∷ one_command) (welcome ++ done) 0 None 0 1 1 }
    ensures answered { Comes (access ++ runs insert ++ Lose ∷ Begin (Chain (insert ∷ [])) ∷ Accept ∷ [])
        (welcome ++ done ++ rerouted) 0 (Some ToldRerouted) 0 0 2 }
    ensures not_released { Comes (access ++ runs open_cursor ++ runs commit ++ Lose ∷ Begin (Chain (insert ∷ [])) ∷ Accept ∷ [])
        (welcome ++ done ++ unit_ended 1 ++ rerouted) 1 (Some Committed) 1 0 3 }
    ensures lost_twice { Comes (access ++ runs insert ++ Lose ∷ Begin (Chain (insert ∷ [])) ∷ Lose ∷ Accept ∷ [])
        (welcome ++ done ++ rerouted) 0 (Some ToldRerouted) 0 0 2 }
{}

/// A commit was sent when the conversation was lost: it is done, or it isn't.
pub fn losses_of_commits()
    ensures done { Comes (access ++ runs insert ++ Begin (Chain (commit ∷ [])) ∷ Sent ∷ Lose ∷ RunLate 1 ∷ Accept ∷ [])
        (welcome ++ done ++ unknown) 1 (Some ToldUnknown) 1 0 2 }
    ensures not_done { Comes (access ++ runs insert ++ Begin (Chain (commit ∷ [])) ∷ Sent ∷ Lose ∷ Accept ∷ [])
        (welcome ++ done ++ unknown) 0 (Some ToldUnknown) 0 0 2 }
    ensures not_sent { Comes (access ++ runs insert ++ Begin (Chain (commit ∷ [])) ∷ Lose ∷ Accept ∷ [])
        (welcome ++ done ++ rerouted) 0 (Some ToldRerouted) 0 0 2 }
    ensures replies_lost { Comes (access ++ Begin (Chain (commit ∷ [])) ∷ Sent ∷ Run ∷ Lose ∷ Accept ∷ []) (welcome ++ unknown) 1 (Some ToldUnknown) 1 0 2 }
    ensures lost_twice { Comes (access ++ Begin (Chain (commit ∷ [])) ∷ Sent ∷ Lose ∷ Lose ∷ Accept ∷ []) (welcome ++ unknown) 0 (Some ToldUnknown) 0 0 2 }
{}

/// No member is left: with an error owed, with none, and before the database was accessed.
pub fn no_member_is_left()
    ensures owed { Comes (access ++ runs insert ++ Lose ∷ Begin (Chain (insert ∷ [])) ∷ NoneLeft ∷ [])
        (welcome ++ done ++ ended) 0 (Some ToldRerouted) 0 0 2 }
    ensures owed_unknown { Comes (access ++ Begin (Chain (commit ∷ [])) ∷ Sent ∷ Lose ∷ NoneLeft ∷ [])
        (welcome ++ ended_unknown) 0 (Some ToldUnknown) 0 0 2 }
    ensures not_owed { Comes (access ++ Begin (Chain (insert ∷ [])) ∷ NoneLeft ∷ []) (welcome ++ ended) 0 (Some ToldRerouted) 0 0 1 }
    ensures before_access { Comes (begins ++ NoneLeft ∷ []) (greeting ++ no_access_left) 0 None 0 0 1 }
{}

/// SET statements run again without a word, up to 64 of them; one more, and the unit can't be run again.
pub fn sets_run_again()
    ensures one { Comes (access ++ runs set ++ Lose ∷ runs insert) (welcome ++ done ++ done) 0 None 0 2 1 }
    ensures most { Comes (access ++ Begin (Chain (replicate 64 set)) ∷ Sent ∷ replicate 64 Run ++ Answer ∷ Lose ∷ runs insert)
        (welcome ++ sets_done ++ done) 0 None 0 65 1 }
    ensures one_more { Comes (access ++ Begin (Chain (replicate 64 set)) ∷ Sent ∷ replicate 64 Run ++ Answer ∷ runs set
        ++ Lose ∷ Begin (Chain (insert ∷ [])) ∷ Accept ∷ []) (welcome ++ sets_done ++ done ++ rerouted) 0 (Some ToldRerouted) 0 0 2 }
{}

/// Of a lost unit, and of one that has ended, nothing runs again: the unit of the new conversation has just what came after.
pub fn nothing_else_runs_again()
    ensures lost { Comes (access ++ runs set ++ runs insert ++ Lose ∷ []) (welcome ++ done ++ done) 0 None 0 0 2 }
    ensures lost_and_told { Comes (access ++ runs set ++ runs insert ++ Lose ∷ Begin (Chain (insert ∷ [])) ∷ Accept ∷ runs set)
        (welcome ++ done ++ done ++ rerouted ++ done) 0 (Some ToldRerouted) 0 1 2 }
    ensures commit_lost { Comes (access ++ runs set ++ Begin (Chain (commit ∷ [])) ∷ Sent ∷ Lose ∷ [])
        (welcome ++ done) 0 None 0 0 2 }
    ensures ended { Comes (access ++ runs set ++ runs commit ++ Lose ∷ runs insert) (welcome ++ done ++ unit_ended 1 ++ done) 1 (Some Committed) 1 1 2 }
{}

/// Access is no work of a unit: a conversation that is lost behind it is replaced without a word.
pub fn losses_of_access()
    ensures behind_it { Comes (access ++ Lose ∷ runs insert) (welcome ++ done) 0 None 0 1 1 }
    ensures within_it { Comes (begins ++ one_command ++ Lose ∷ one_command) welcome 0 None 0 0 1 }
{}

/// A commit whose replies were lost isn't told as done, though it is: not where it is lost, and not where no member is left.
pub fn lost_replies()
    ensures not_told_yet { Comes (access ++ Begin (Chain (commit ∷ [])) ∷ Sent ∷ Run ∷ Lose ∷ []) welcome 1 None 1 0 2 }
    ensures no_member { Comes (access ++ Begin (Chain (commit ∷ [])) ∷ Sent ∷ Run ∷ Lose ∷ NoneLeft ∷ [])
        (welcome ++ ended_unknown) 1 (Some ToldUnknown) 1 0 2 }
{}

/// A segment of which not all commands ran doesn't run again: its first SET is answered twice, by a SQLCARD of success and by
/// one that is an error too, so its second never ran, though there is a SQLCARD for each.
pub fn not_all_ran()
    ensures stopped { Comes (access ++ Begin (Chain (set_at_sample ∷ set ∷ [])) ∷ Sent ∷ Run ∷ Answer ∷ Lose ∷ Begin (Chain (insert ∷ [])) ∷ Accept ∷ [])
        (welcome ++ done_twice ++ rerouted) 0 (Some ToldRerouted) 0 0 2 }
{}

/// What the gateway itself answers: a code point that is no command, after which the chain goes on, or doesn't; and a command
/// that isn't allowed yet.
pub fn local_answers()
    ensures goes_on { Comes (Begin (Chain (unknown_first true ∷ excsat_second ∷ [])) ∷ []) (cmdnsp_reply true ++ excsat_reply) 0 None 0 0 1 }
    ensures stops { Comes (Begin (Chain (unknown_first false ∷ excsat_second ∷ [])) ∷ []) (cmdnsp_reply false) 0 None 0 0 1 }
    ensures not_allowed { Comes (Begin (Chain (commit ∷ [])) ∷ []) prccnv_reply 0 None 0 0 1 }
{}
