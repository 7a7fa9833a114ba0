ghost use Rattle.std.specs.Prelude.{◌≡◌, ℕ, List};
ghost use Rattle.meta_gen.specs.WellFormed.{IsWellFormed};
ghost use Rattle.meta_gen.specs.WholeTables.{WholeTables};
ghost use Rattle.meta_table_text.specs.declared.version.Version.{Version};
ghost use Rattle.meta_table_text.specs.Fits.{Fits};
ghost use Rattle.meta_table_text.specs.TableText.{table_text};
ghost use Rattle.meta_table_reader.specs.Readable.{Reads};

/// A text tells its tables: well-formed tables that fit a version and have the same text in it are equal.
pub fn a_text_tells_its_tables()
    ensures { (v : Version) (t u : WholeTables) → IsWellFormed t → IsWellFormed u → Fits v t → Fits v u
        → table_text v t ≡ table_text v u → t ≡ u }
{}

/// A text reads as the tables of at most one instruction set, in whichever versions.
pub fn a_text_reads_as_one()
    ensures { (text : List ℕ) (t u : WholeTables) → Reads text t → Reads text u → t ≡ u }
{}
