//! That walks by number are walks by name.
ghost use Rattle.std.specs.Prelude.{◌↔◌, ℕ, List};
ghost use Rattle.smv_tree.specs.Models.{Body};
ghost use Rattle.smv_meaning.specs.Walks.{IsWalk};
ghost use Rattle.smv_meaning.specs.ModuleCycles.{Instantiates};
ghost use Rattle.smv_graph.specs.Graph.{graph_of, Reaches, IsNumbered};

/// A walk leads from one module to another by their numbers where one does by their names.
pub fn numbers_walk_as_names()
    ensures { (program : List Body) (m n : List ℕ) (a b : ℕ) →
        IsNumbered program m a → IsNumbered program n b →
        (Reaches (graph_of program) a b ↔ ((xs : List (List ℕ)) × IsWalk (Instantiates program) m xs n)) }
{}
