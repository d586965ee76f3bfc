//! The state and the history that it stands for.
ghost use Rattle.std.specs.Prelude.{◌≡◌, ℕ, List, ◌∷◌, Option};
ghost use Rattle.stream_config.specs.declared.attrs.StreamName.{StreamName};
ghost use Rattle.stream_config.specs.declared.attrs.StreamAttrs.{StreamAttrs};
ghost use Rattle.record_print.specs.declared.record.LogRecord.{LogRecord};
ghost use Rattle.log_history.specs.Changes.{LogChange};
ghost use Rattle.log_history.specs.Chronicle.{LogSetup};
ghost use Rattle.log_history.specs.Legal.{IsLogHistory};
ghost use Rattle.log_history.specs.Table.{table, table_after};
ghost use Rattle.log_history.specs.Answers.{begin_answer, close_answer, end_answer, store_answer, making_of};
ghost use Rattle.log_history.specs.KeptAnswers.{begin_status, close_status, end_status, store_status, making_in};
ghost use Rattle.log_service.specs.Laws.{OpensByRows, WritesByRows, FiltersByRows};

/// A state that stands for all that changed answers by the rows of that history, and one more change makes of it
/// the state that stands for the longer one.
pub fn law_of_history()
    ensures begin { (setup : LogSetup) (past : List LogChange) (client : ℕ) →
        begin_status (table setup past) client ≡ begin_answer setup past client }
    ensures end { (setup : LogSetup) (past : List LogChange) (client : ℕ) →
        end_status (table setup past) client ≡ end_answer setup past client }
    ensures opening { (setup : LogSetup) (past : List LogChange) → OpensByRows setup past }
    ensures making { (setup : LogSetup) (past : List LogChange) (name : StreamName)
        (create : Option StreamAttrs) →
        making_in (table setup past).streams name create ≡ making_of setup past name create }
    ensures write { (setup : LogSetup) (past : List LogChange) → IsLogHistory setup past →
        WritesByRows setup past }
    ensures filter { (setup : LogSetup) (past : List LogChange) → IsLogHistory setup past →
        FiltersByRows setup past }
    ensures close { (setup : LogSetup) (past : List LogChange) → IsLogHistory setup past →
        (client : ℕ) (name : StreamName) →
        close_status (table setup past) client name ≡ close_answer setup past client name }
    ensures store { (setup : LogSetup) (past : List LogChange) → IsLogHistory setup past →
        (name : StreamName) (rec : LogRecord) →
        store_status (table setup past) name rec ≡ store_answer setup past name rec }
    ensures after { (setup : LogSetup) (change : LogChange) (past : List LogChange) →
        IsLogHistory setup (change ∷ past) →
        table setup (change ∷ past) ≡ table_after change (table setup past) }
{}
