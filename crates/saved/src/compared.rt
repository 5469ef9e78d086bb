// Whether the records on the chain are a state's own.
ghost use Rattle.std.specs.Prelude.{◌≡◌};
ghost use Rattle.std.specs.List.{list_all, zip};
ghost use Rattle.records.specs.Tables.{holds};
ghost use Rattle.kinds.specs.Kinds.{Roomy, kind_number, kind_words};

use kinds::kind::Kind;
use kinds::sections::section_of;
use records::Table;
use state::State;

// The table of a kind holds the state's words of that kind, at their positions and no other.
fn kind_holds(state: &State, kind: Kind, table: &Table) -> bool
    requires { Roomy state.now }
    ensures { result ≡ holds table.now (kind_words state.now (kind_number kind)) }
{
    let section = section_of(state, kind);
    table.holds(section.as_slice())
}

// So does the table of each kind.
pub fn kinds_hold(state: &State, tables: &[Table; 6]) -> bool
    requires { Roomy state.now }
    ensures { result ≡ list_all (λ p. holds p.1 (kind_words state.now (kind_number p.0))) (zip Kind.ALL tables.now) }
{
    Kind::ALL
        .iter()
        .zip(tables)
        .all(|(kind, table)| kind_holds(state, *kind, table))
}
