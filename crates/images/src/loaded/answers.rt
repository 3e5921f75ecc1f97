// What a loaded table answers.
ghost use Rattle.images.specs.Loaded.{table_of};
ghost use Rattle.images.specs.LoadedSound.{loaded_table_is_sound};

use crate::loaded::LoadedTable;
use tables::table::RuleTable;

impl RuleTable for LoadedTable {
    ghost meaning = { table_of };

    ghost sound = { loaded_table_is_sound };

    fn states(&self) -> usize {
        self.states
    }

    fn next(&self, state: usize, byte: u8) -> Option<usize> {
        (state < self.states).then(|| {
            let class = self.class_of[byte as usize] as usize;
            self.steps[state * self.classes + class] as usize
        })
    }

    fn label(&self, state: usize) -> Option<u8> {
        self.labels[..self.states].get(state).copied()
    }
}
