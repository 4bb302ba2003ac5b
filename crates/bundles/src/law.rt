ghost use Rattle.bundles.specs.Composed.{ComposedBundlesAreRead};
ghost use Rattle.bundles.specs.MessageLines.{MessageLinesAreRead, OtherLinesAreBad};
ghost use Rattle.bundles.specs.SectionLines.{SectionsStandInBundles, LastSectionsEndBundles};
ghost use Rattle.bundles.specs.SpelledAnswers.{AnswerLinesAreRead};
ghost use Rattle.bundles.specs.SpelledAnswers.{OtherLinesAreBad as OtherAnswerLinesAreBad};
ghost use Rattle.bundles.specs.WellFormed.{WellFormedBundlesAreRead, NoOthersAreRead};

/// The bundles that are read are those with exactly the headers of their command, in order, and
/// only blank lines above the first of them. Their sections are the lines between.
pub fn well_formed_bundles_are_read()
    ensures read { WellFormedBundlesAreRead }
    ensures no_others { NoOthersAreRead }
{}

/// The bundle of a command and of files, one for each of its sections, is read as that command,
/// and its sections hold the lines of these files and nothing else, where each file's last line is
/// ended and none of its lines begins with `%`.
pub fn composed_bundles_are_read()
    ensures { ComposedBundlesAreRead }
{}

/// The lines of each section are lines of its bundle, and their numbers are the bundle's, counted
/// from the command; the last section goes on to the bundle's last line.
pub fn sections_keep_their_lines()
    ensures stand { SectionsStandInBundles }
    ensures last { LastSectionsEndBundles }
{}

/// The lines that are read as messages are those whose words spell one, and any other line is
/// answered by BadMessage with its number.
pub fn message_lines_are_read()
    ensures read { MessageLinesAreRead }
    ensures others { OtherLinesAreBad }
{}

/// The lines that are read as answers are `-` and those whose words spell one, and any other line
/// is answered by BadAnswer with its number.
pub fn answer_lines_are_read()
    ensures read { AnswerLinesAreRead }
    ensures others { OtherAnswerLinesAreBad }
{}
