//! What is true of rows, sets and plans, of the requests of all plans, and of every run of the
//! machine of changes.
ghost use Rattle.exb_control_spec.specs.Plans.CarriedFrames.{CarriedFromTheTop, GroupWordsCarry, ChannelWordsCarry, ControlWordsCarry};
ghost use Rattle.exb_control_spec.specs.Plans.Rows.{RowsCover};
ghost use Rattle.exb_control_spec.specs.Plans.LaidRows.{RowsLie};
ghost use Rattle.exb_control_spec.specs.Plans.Sets.{SetsOfEach};
ghost use Rattle.exb_control_spec.specs.Plans.Laws.{RefusedAsCommanded, HeldGoesOn, BeginsHeld};
ghost use Rattle.exb_control_spec.specs.Plans.TouchedPartLaws.{UsesChange, SetsAreUsed, FreshAreTouched, GoneAreTouched, UsedAreSets};
ghost use Rattle.exb_control_spec.specs.RequestLaws.{ChangesAreShort, ReleasedIsFreed, ReleasedIsNeeded};
ghost use Rattle.exb_control_spec.specs.Runs.Requests.{PlansRun, OpeningsRun, RestIsLaidOut, ClaimedIsLaidOut, NothingIsLaid};
ghost use Rattle.exb_control_spec.specs.Runs.InitialMachine.{SetupsBegin, Begins, RunsFromTheBeginning};
ghost use Rattle.exb_control_spec.specs.Runs.WaitingAskers.{StepsWait, OneWaitsAlways, StepsNumber, SerialsCount};
ghost use Rattle.exb_control_spec.specs.Runs.RequestTargets.{BeginsKnowing, StepsKnow};
ghost use Rattle.exb_control_spec.specs.Runs.OpeningOrder.{BeginsInTurn, StepsKeepTurns, SerialsStayLow};
ghost use Rattle.exb_control_spec.specs.Runs.ExchangeCounts.{AnswersCount, HearingCounts, OthersLeaveCounts};
ghost use Rattle.exb_control_spec.specs.Runs.Journal.{StepsTell, DecidedOnce};
ghost use Rattle.exb_control_spec.specs.Runs.StrayMessages.{StraysChangeNothing, OldAreStray};
ghost use Rattle.exb_control_spec.specs.Runs.TablesMidChange.{LaidMidway, CarriesMidway};
ghost use Rattle.exb_control_spec.specs.Runs.PlannedChanges.{PlannedStepsStand, PlannedRunsStand, ReadyMidway, AnswersAreTaken, HeldAreNumbers};

/// What is carried may be followed from the top: what leaves at a port is what the extender sends
/// at its port towards it, carried into the extender there.
pub fn carried_from_the_top()
    ensures { CarriedFromTheTop }
{}

/// The rows of a set have just the ports whose subtree has a port of the set.
pub fn rows_cover()
    ensures { RowsCover }
{}

/// Where the rows of a set are put under a number that is free below a bridge port, they are laid.
pub fn rows_lie()
    ensures { RowsLie }
{}

/// A group's word comes out once at each port of its set, without its E-TAG, but for the port whose
/// own channel is the ingress number; and at no other external port.
pub fn group_words_carry()
    ensures { GroupWordsCarry }
{}

/// A channel's word comes out once at its port, without its E-TAG, and at no other external port.
pub fn channel_words_carry()
    ensures { ChannelWordsCarry }
{}

/// A control word with the channel of a cascade port comes to the extender that hangs there,
/// without its E-TAG. On its way it is as it was, and it leaves at no other port.
pub fn control_words_carry()
    ensures { ControlWordsCarry }
{}

/// Of each bridge port, the sets of a configuration are those that need a group of its space, in
/// order.
pub fn sets_of_each()
    ensures { SetsOfEach }
{}

/// A plan for what a command makes of a configuration is refused exactly where the command is, for
/// the same cause.
pub fn refused_as_commanded()
    ensures { RefusedAsCommanded }
{}

/// Just what the configuration needs is held before the first port of an extender goes up, where
/// just the cascade ports of extenders have channels and no group is held.
pub fn begins_held()
    ensures { BeginsHeld }
{}

/// Where just what the old configuration needs is held, a plan that isn't refused makes that just
/// what the new one needs is held, once its numbers are claimed and, at the end, freed. So the next
/// plan may follow.
pub fn held_goes_on()
    ensures { HeldGoesOn }
{}

/// How often a set is a part changes by the touched parts alone.
pub fn uses_change()
    ensures { UsesChange }
{}

/// A configuration has a set exactly where it is a part.
pub fn sets_are_used()
    ensures { SetsAreUsed }
{}

/// The sets that come are those of the touched parts that weren't there, each once, in order.
pub fn fresh_are_touched()
    ensures { FreshAreTouched }
{}

/// A group goes exactly where its set is a touched part and then no part any more.
pub fn gone_are_touched()
    ensures { GoneAreTouched }
{}

/// Where just what the configuration needs is held, as many groups are in use at a bridge port as
/// it has sets there.
pub fn used_are_sets()
    ensures { UsedAreSets }
{}

/// A plan has at most 2 to the power of 20 requests before its commit, and as many after it.
pub fn changes_are_short()
    ensures { ChangesAreShort }
{}

/// What is given back at the end of a change is what its plan frees, where no group is held but at
/// the cascade ports of the bridge.
pub fn released_is_freed()
    ensures { ReleasedIsFreed }
{}

/// Once a change gives its numbers back, just what the new configuration needs is held.
pub fn released_is_needed()
    ensures { ReleasedIsNeeded }
{}

/// Where just what is held is laid, executing a plan's requests in order gives code 0 each time.
/// Then just what is claimed is laid, and at the end just what isn't freed.
pub fn plans_run()
    ensures { PlansRun }
{}

/// Executing the requests of an extender's opening in order gives code 0 each time. Then the
/// channels of its cascade ports are laid.
pub fn openings_run()
    ensures { OpeningsRun }
{}

/// At rest the rows of all that is held are laid out in the tables of all extenders, and no other
/// rows.
pub fn rest_is_laid_out()
    ensures { RestIsLaidOut }
{}

/// So they are once the numbers of a change are claimed, for the old configuration and the new one.
pub fn claimed_is_laid_out()
    ensures { ClaimedIsLaidOut }
{}

/// At the beginning, where just the cascade ports of extenders hold channels and no extender is
/// opened, what is laid is what extenders have at power-on: nothing.
pub fn nothing_is_laid()
    ensures { NothingIsLaid }
{}

/// Each valid setup is a beginning of the machine: what the laws below ask of a beginning holds of
/// it.
pub fn setups_begin()
    ensures { SetupsBegin }
{}

/// The machine and the tables stand at the beginning, where no port of an extender is present and
/// each extender has the tables of power-on.
pub fn begins()
    ensures { Begins }
{}

/// Each step keeps what stands, and no extender answers another code than 0. At rest just what is
/// held is laid in the tables of all extenders, and just what the configuration needs is held.
/// While a request is outstanding, the requests that are left lead to the next tables that are
/// laid.
pub fn steps_stand()
    ensures { PlannedStepsStand }
{}

/// So it is over every run.
pub fn runs_stand()
    ensures { PlannedRunsStand }
{}

/// Over every run from the beginning the machine and the tables stand, and no extender answers
/// another code than 0.
pub fn runs_from_the_beginning()
    ensures { RunsFromTheBeginning }
{}

/// Each step tells what the jobs that it decides tell, in order, and no more.
pub fn steps_tell()
    ensures { StepsTell }
{}

/// Over each run from the beginning, each job is decided once, in order. It is refused exactly
/// where the configuration that those before it left refuses its command, with the cause of that;
/// else it commits.
pub fn decided_once()
    ensures { DecidedOnce }
{}

/// Each answer that is taken makes one planned exchange less.
pub fn answers_count()
    ensures { AnswersCount }
{}

/// So does each extender that is heard and wasn't before.
pub fn hearing_counts()
    ensures { HearingCounts }
{}

/// Any other message and a beat leave the number of planned exchanges as it is.
pub fn others_leave_counts()
    ensures { OthersLeaveCounts }
{}

/// Each step keeps that an asker waits exactly where its extender is that of the outstanding
/// request.
pub fn steps_wait()
    ensures { StepsWait }
{}

/// Over each run from the beginning, an asker waits exactly where its extender is that of the
/// outstanding request. So no request is asked while one waits.
pub fn one_waits_always()
    ensures { OneWaitsAlways }
{}

/// A step adds the requests that it asks to the serial of each asker, and they go out under the new
/// serial.
pub fn steps_number()
    ensures { StepsNumber }
{}

/// The serial of each asker is the number of requests that were asked of it.
pub fn serials_count()
    ensures { SerialsCount }
{}

/// At every moment, also in the middle of a change, the configuration in force has its numbers:
/// each of its sets a group, and each of its present ports a channel.
pub fn ready_midway()
    ensures { ReadyMidway }
{}

/// The channels that are found are 1 to 4094, each of one port, and the groups 4,096 to 16,383.
pub fn held_are_numbers()
    ensures { HeldAreNumbers }
{}

/// At every moment, whatever requests were executed, the tables have the rows of each set of the
/// configuration in force for its group, and of each of its present ports for its channel, which is
/// the port's own.
pub fn laid_midway()
    ensures { LaidMidway }
{}

/// So they carry at every moment what the configuration in force uses: a word with the group of a
/// set comes out once at each port of the set, and a word with the channel of a present port at
/// that port.
pub fn carries_midway()
    ensures { CarriesMidway }
{}

/// The answer to the outstanding request is taken as that, and its code is 0.
pub fn answers_are_taken()
    ensures { AnswersAreTaken }
{}

/// A message that is no answer changes nothing, and nothing happens or goes out.
pub fn strays_change_nothing()
    ensures { StraysChangeNothing }
{}

/// A message is no answer where its serial is that of an earlier request, or where its extender
/// isn't waited for.
pub fn old_are_stray()
    ensures { OldAreStray }
{}

/// At the beginning all jobs are ones of the tree, and no request is outstanding.
pub fn begins_knowing()
    ensures { BeginsKnowing }
{}

/// Each message that goes out goes to an extender of the tree, whatever comes.
pub fn steps_know()
    ensures { StepsKnow }
{}

/// At the beginning no extender was asked anything, and each waits for its opening.
pub fn begins_in_turn()
    ensures { BeginsInTurn }
{}

/// Each step keeps that an extender is asked nothing before its opening, which begins with Open
/// once it was heard; that the queue waits for an extender that wasn't heard, where nothing is
/// outstanding; and that no extender is asked more than the jobs so far may ask.
pub fn steps_keep_turns()
    ensures { StepsKeepTurns }
{}

/// So no extender is asked as many as 2 to the power of 38 requests, where at most 65,536 commands
/// were given.
pub fn serials_stay_low()
    ensures { SerialsStayLow }
{}
