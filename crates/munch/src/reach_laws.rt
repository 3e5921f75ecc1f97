// The laws about reach and lateness, each proved once and for all.
ghost use Rattle.munch.specs.LateLaws.{EverLaterLaw, ExactLaw, NoLaterLaw};
ghost use Rattle.munch.specs.ReachLaws.{AbsenceLaw, LatenessLaw, RoundLaw, TokenlessLaw, WitnessLaw};

// In a tokenless table no word has a token.
pub fn tokenless_table_has_no_token()
    ensures { TokenlessLaw }
{}

// No token is later than the reach, during the input and after its end.
pub fn lateness_is_within_reach()
    ensures { LatenessLaw }
{}

// Words that show a reach make the first token exactly that late.
pub fn reach_words_make_the_first_token_late()
    ensures { WitnessLaw }
{}

// Words that show that there is no reach keep everything unsettled, however often their loop is taken.
pub fn endless_words_settle_nothing()
    ensures { AbsenceLaw }
{}

// Chains of every length exist exactly if one comes round.
pub fn endless_chains_come_round()
    ensures { RoundLaw }
{}

// No token settles later than the reach past its end, by any table, during the input and after its end.
pub fn no_token_is_later_than_the_reach()
    ensures { NoLaterLaw }
{}

// Words that show a reach, one after the other and finished, make the first token exactly that late.
pub fn reach_words_are_exactly_late()
    ensures { ExactLaw }
{}

// Words that show that there is no reach settle nothing, however often the loop is taken, and make the first token late
// by all the bytes after the first word.
pub fn endless_words_are_ever_later()
    ensures { EverLaterLaw }
{}
