//! The laws of whole chains, over every schedule.
ghost use Rattle.world_laws.specs.EndLaws.{EndsRightlyAfterEverySchedule};
ghost use Rattle.world_laws.specs.HopLaws.{HopsStandAfterEverySchedule};
ghost use Rattle.world_laws.specs.Playing.{CoherentOfEveryFile, EndsOfEveryFile, FreshOfEveryFile, HoldsOfEveryFile, ReadIsPlayable, StepsOfEveryFile, UnstuckOfEveryFile};
ghost use Rattle.world_laws.specs.StepLaws.{LogSaysSteps};
ghost use Rattle.world_laws.specs.WorldLaws.{CoherentAfterEverySchedule, FaithfulAfterEverySchedule, FreshAfterEverySchedule, NothingStuckAfterEverySchedule};

/// The law that after every schedule of so many chains, of any length, the history of the target is legal, and that the log
/// of each client answers each command once and follows the history, on one of the channels that its chain had; where
/// nothing is under way on the chain it answers each one, and all that the history says has come. And that ends close only
/// so: a log ends by its own closing or by the loss of the connection only where a step closes the chain or cuts its first
/// hop, by the end of the other side's stream only where a step cuts another hop, or where the agent refused the channel of
/// a chain without value-adds, and never by a fault of the other side; an end of a value-add closes by no such fault, and
/// one of the agent only since the bytes that came have ended or their stream has. And that the lines `sent`, `refused` and
/// `cached` of a log are, in order, those of the schedule's steps that ask something of its client, one for each.
/// And that what each client keeps is true:
/// after each line of its log, of the target at the position of the last message; and so is what each bound value-add
/// knows, at the position of the last message that it took. And that each answer with a position, of the target or from a
/// store on the way, to a command that may be answered from a store is what the target answers at that position. And that
/// nothing is stuck: where nothing is under way on a chain no command is pending or held at an end of it that is open, and
/// none ever is at one of the agent.
///
/// And that each hop of a chain that was opened stands, at any moment, by the past of the world: the calls that its nodes got,
/// which each step of the schedule writes down. What an open end of a live one took and what is under way to it is what the other
/// one queued, and each command that is pending at it and not held is under way, or taken and not answered, or its answer is under
/// way; the last level that an end told fits its inbox; what an end of one that was cut took, and then what waits in its inbox, is
/// in order the first of what the other one queued; and all that is said down a hop, whatever of it came, is told rightly.
pub fn every_schedule()
    ensures faithful { FaithfulAfterEverySchedule }
    ensures ends { EndsRightlyAfterEverySchedule }
    ensures steps { LogSaysSteps }
    ensures coherent { CoherentAfterEverySchedule }
    ensures fresh { FreshAfterEverySchedule }
    ensures unstuck { NothingStuckAfterEverySchedule }
    ensures hops { HopsStandAfterEverySchedule }
{}

/// The law that each step of a schedule that is read can be played.
pub fn read_is_playable()
    ensures { ReadIsPlayable }
{}

/// The law that the world is faithful that playing the schedule of a file brings about, that its ends close only as the
/// schedule's steps say, that its logs say what the steps asked of the clients, that what its clients keep and its
/// value-adds know is true, that the answers are fresh, and that nothing is stuck in it.
pub fn every_file()
    ensures faithful { HoldsOfEveryFile }
    ensures ends { EndsOfEveryFile }
    ensures steps { StepsOfEveryFile }
    ensures coherent { CoherentOfEveryFile }
    ensures fresh { FreshOfEveryFile }
    ensures unstuck { UnstuckOfEveryFile }
{}
