// What holds of the tables of this crate, proved once and for all.
ghost use Rattle.tables.specs.Openness.{TellsRightly};
ghost use Rattle.tables.specs.Share.{share_marks, share_table};

// The share table tells rightly which of its states are open.
pub fn share_table_tells_rightly()
    ensures { TellsRightly share_table share_marks }
{}
