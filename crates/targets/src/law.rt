ghost use Rattle.targets.specs.SomeAnswer.{MessagesHaveAnswers, SilenceHasAnswers, SomeCase};
ghost use Rattle.targets.specs.StateLaws.{StartsBelong, StepsBelong, AnswersHaveStates};
ghost use Rattle.targets.specs.ContendedLaws.{AloneWithoutContenders, LosersChangeNothing};
ghost use Rattle.targets.specs.ContendedLaws.{WinnersLeaveTargets, FewAreLost};
ghost use Rattle.targets.specs.ContendedLaws.{NoneStartsWithoutForeign};
ghost use Rattle.targets.specs.ContendedLaws.{NoneWinsWithoutContentions, AllowedCanStart};
ghost use Rattle.targets.specs.LostAnswers.{ContendersMayWin, SomeMayWin};
ghost use Rattle.targets.specs.AlertLaws.{SomeTargetWins, OneTargetWins, LowestAddressWins};
ghost use Rattle.targets.specs.PlaceLaws.{TargetsAreFound};
ghost use Rattle.targets.specs.RangeLaws.{ValuesAreOfForm, LengthsAreOfBlocks};
ghost use Rattle.targets.specs.WireLaws.{FittingBytesAreOnWire};

use wires::least_byte_wins;

/// Targets always have an answer: to each message that belongs to their board, in each state that
/// belongs to it, some answer fits, and to a step that sends nothing too.
pub fn some_answer_fits()
    ensures messages { MessagesHaveAnswers }
    ensures silence { SilenceHasAnswers }
    // There are such boards, states and messages.
    ensures case { SomeCase }
{
    least_byte_wins();
}

/// The states in which a run may start belong to the board, and so do those after answers that fit.
pub fn states_belong()
    ensures starts { StartsBelong }
    ensures steps { StepsBelong }
{}

/// What other controllers change. Beside a step where none starts, or one that doesn't win, all is
/// as for targets alone; one that wins leaves the targets as they are.
pub fn contenders_change_this()
    ensures alone { AloneWithoutContenders }
    ensures losers { LosersChangeNothing }
    ensures winners { WinnersLeaveTargets }
    ensures few { FewAreLost }
    ensures no_foreign { NoneStartsWithoutForeign }
    ensures no_contentions { NoneWinsWithoutContentions }
{}

/// Each controller that the board lets start can be driven, and may win over each message to a
/// higher address, where fewer arbitrations were lost than may be.
pub fn contenders_may_win()
    ensures driven { AllowedCanStart }
    ensures may { ContendersMayWin }
    // There are such boards, states, messages and controllers.
    ensures case { SomeMayWin }
{}

/// Where targets alert, one of them wins the alert response: the one with the lowest address.
pub fn lowest_address_wins()
    ensures some { SomeTargetWins }
    ensures one { OneTargetWins }
    ensures lowest { LowestAddressWins }
{
    least_byte_wins();
}

/// Whatever is asked and answered in a state of the board, there is a state after it.
pub fn answers_have_states()
    ensures { AnswersHaveStates }
{
    lowest_address_wins();
}

/// A target is found by its address, which no other target of the board has.
pub fn targets_are_found()
    ensures { TargetsAreFound }
{}

/// To each message the board lets some value and some length be returned, and only such as the
/// message's form and a block have.
pub fn ranges_are_of_forms()
    ensures values { ValuesAreOfForm }
    ensures lengths { LengthsAreOfBlocks }
{}

/// Where an answer fits a message in a state of the board, its value is a word, and its block has
/// bytes.
pub fn fitting_bytes_are_on_wire()
    ensures { FittingBytesAreOnWire }
{
    least_byte_wins();
}
