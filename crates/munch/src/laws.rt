// The laws about munch, settling and lateness, each proved once and for all.
ghost use Rattle.munch.specs.Laws.{CutLaw, FinalPointsLaw, GrowthLaw, MarksLaw, MunchLaw, NothingLaw, PointsLaw, SplitterLaw};

// Munch of every word exists and is unique, and accounts for every byte.
pub fn every_word_has_one_munch()
    ensures { MunchLaw }
{}

// Every right splitter answers a beginning of the common list.
pub fn every_right_splitter_begins_the_common_list()
    ensures { SplitterLaw }
{}

// The common list of a beginning begins the common list of the whole.
pub fn common_lists_grow()
    ensures { GrowthLaw }
{}

// With no byte taken nothing is settled, also where the start is closed.
pub fn nothing_is_settled_by_no_byte()
    ensures { NothingLaw }
{}

// Where the open states are told rightly, the bytes are cut in one way, whose tokens are the common list, and which is
// stuck exactly where failure is settled.
pub fn the_cutting_is_the_common_list()
    ensures { CutLaw }
{}

// The settling point of a token is the later of where its own walk closes and of the point before it.
pub fn tokens_settle_where_walks_close()
    ensures { PointsLaw }
{}

// Once the input is finished, a walk that never closed counts as closing at the number of all bytes taken.
pub fn finished_tokens_settle_by_the_end()
    ensures { FinalPointsLaw }
{}

// Every rule table has marks that tell its open states rightly.
pub fn every_table_has_marks()
    ensures { MarksLaw }
{}
