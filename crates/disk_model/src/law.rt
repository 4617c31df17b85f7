//! What holds of every disk and of all notes. The functions have nothing to run.

ghost use Rattle.disk_model.specs.Laws.{ReadsBack, LandsWhole, KeepsOtherBlocks, ReplacesOneSector};
ghost use Rattle.disk_model.specs.Laws.{StartsWhole, StaysWhole, LandsWholeSectors, HasItsLength};
ghost use Rattle.disk_model.specs.SaveOutcome.{TellsWhatIsLeft};
ghost use Rattle.std.specs.Prelude.{◌≡◌, ◌==◌, replicate};
ghost use Rattle.disk_model.specs.File.{landed, zeros};

/// A block holds what was written to it, or what landed of it as a whole, and other blocks hold
/// what they held. A sector that is replaced changes no other.
pub fn block_law()
    ensures reads_back { ReadsBack }
    ensures lands_whole { LandsWhole }
    ensures keeps_other_blocks { KeepsOtherBlocks }
    ensures replaces_one_sector { ReplacesOneSector }
{}

/// Each sector has 512 bytes, from a file on which nothing was written on, through every write and
/// read, failed ones too, and through what a cut or a failing medium leaves. So a block has the
/// length that it is read at.
pub fn sector_law()
    ensures starts_whole { StartsWhole }
    ensures stays_whole { StaysWhole }
    ensures lands_whole_sectors { LandsWholeSectors }
    ensures has_its_length { HasItsLength }
{}

/// Each save, but one that finds no memory, leaves one of what [`SaveOutcome`](crate::SaveOutcome) names.
pub fn save_law()
    ensures { TellsWhatIsLeft }
{}

/// A torn write: two sectors of sevens go to sectors 4 and 5 of a file of zeros, and only the
/// second of them lands.
pub fn examples()
    ensures lost { landed (λ i. i == 1) 4 (replicate 1024 7) (λ _. zeros) 4 ≡ zeros }
    ensures landed { landed (λ i. i == 1) 4 (replicate 1024 7) (λ _. zeros) 5 ≡ replicate 512 7 }
    ensures behind { landed (λ i. i == 1) 4 (replicate 1024 7) (λ _. zeros) 6 ≡ zeros }
{}
