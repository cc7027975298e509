// What holds of the grammar, whatever the bytes are. These calls do nothing.
ghost use Rattle.schedule_text.specs.Laws.{SpellOne, SpellOrBad, NeverSpelledAndBad, OneBadLine, GivesSchedules, RefusesMoreRuns, NamesBadLine, TextSpells, TextIsRead, GivesItems, BeginsAsItem, TakesItem, CountsItem};

/// Bytes spell at most one schedule.
pub fn one_schedule()
    ensures { SpellOne }
{}

/// Bytes either spell a schedule or have a bad line, and one line is the first bad one.
pub fn spelled_or_bad()
    ensures either { SpellOrBad }
    ensures never_both { NeverSpelledAndBad }
    ensures one_line { OneBadLine }
{}

/// The outcome that `schedule_of` computes is the one that the grammar gives.
pub fn exact_outcome()
    ensures schedules { GivesSchedules }
    ensures more { RefusesMoreRuns }
    ensures bad_line { NamesBadLine }
{}

/// The text that is written of a schedule spells it, and is read back.
pub fn written_is_read()
    ensures spells { TextSpells }
    ensures read { TextIsRead }
{
    fri_text::laws::words_read_back();
    fri_text::laws::exact_hex();
}

/// A line by itself gives the item that it would be in a schedule of so many processes, and such an item may follow
/// those of any schedule with them.
pub fn exact_item_lines()
    ensures exact { GivesItems }
    ensures word { BeginsAsItem }
    ensures follows { TakesItem }
    ensures counts { CountsItem }
{}
