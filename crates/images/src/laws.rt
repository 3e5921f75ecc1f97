// What holds of every image, proved once and for all.
ghost use Rattle.images.specs.Image.{Verdicts};
ghost use Rattle.std.specs.Prelude.{ℕ, List};

// Of every image exactly one holds: it writes down a table, or it has one of the six faults, and no other.
// And it writes down at most one table.
pub fn every_image_has_one_verdict()
    ensures { (image : List ℕ) → Verdicts image }
{}
