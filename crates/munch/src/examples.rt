// The examples, proved of the definitions, and how late tokens can be by the tables of the examples.
ghost use Rattle.munch.specs.Examples.{ExamplesLaw, tail_marks, tail_table};
ghost use Rattle.munch.specs.Reach.{NoReach, Reach};
ghost use Rattle.tables.specs.Openness.{TellsRightly};
ghost use Rattle.tables.specs.Share.{share_table};

// Every example of the list holds.
pub fn examples_hold()
    ensures { ExamplesLaw }
{}

// The tail table tells rightly which of its states are open.
pub fn tail_table_tells_rightly()
    ensures { TellsRightly tail_table tail_marks }
{}

// The reach of the share table is 2: so late can its tokens be, and no later.
pub fn share_table_reaches_two()
    ensures { Reach share_table 2 }
{}

// The tail table has no reach: it has chains of every length.
pub fn tail_table_has_no_reach()
    ensures { NoReach tail_table }
{}
