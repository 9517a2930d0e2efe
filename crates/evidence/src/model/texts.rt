//! Texts of instances: which fault is told, and what a name names.

ghost use Rattle.std.specs.Prelude.{◌≡◌, ◌≢◌, ℕ, ◌≤◌, ◌∷◌, ◌^◌, List, Some, Ok, IfOk, IsErrAnd, codes, pos};
ghost use Rattle.toml.specs.Data.{Data, Members, get_member, integer, member, no_members, string};
ghost use Rattle.ttp_model.specs.declared.parts.Cluster.{Cluster};
ghost use Rattle.ttp_model.specs.declared.parts.Node.{Node};
ghost use Rattle.ttp_model.specs.Instance.{node_at, node_of};
ghost use Rattle.instance_text.specs.Faults.{IsDocument};
ghost use Rattle.instance_text.specs.Stated.{Tables, cluster_of, nodes_of, stated_tables};

use instance_text::{Key, Place, TextError, read};
use std::alloc::Global;
use ttp_model::Instance;

/// A text whose top table has the key `nodes`: it should be `node`.
pub fn unknown_key(alloc: Global, bytes: &[u8]) -> Result<Instance, TextError>
    ensures { (d : Data) (ms : Members) → IsDocument bytes.now (member (codes "nodes") d ms)
        → IsErrAnd result (λ e. e ≢ TextError.OutOfMemory → e ≡ TextError.UnknownKey Place.Top) }
{
    read(alloc, bytes)
}

/// A text whose `[cluster]` states a precision that does not fit 32 bits, and nothing else.
pub fn precision_past_32_bits(alloc: Global, bytes: &[u8]) -> Result<Instance, TextError>
    ensures { (table : Members) (tables : Tables) (n : ℕ) → 2 ^ 32 ≤ n
        → IsDocument bytes.now table → stated_tables table ≡ Ok tables
        → tables.cluster ≡ member (codes "precision") (integer (pos n)) no_members
        → IsErrAnd result (λ e. e ≢ TextError.OutOfMemory
        → e ≡ TextError.OutOfRange Place.Cluster Key.Precision) }
{
    read(alloc, bytes)
}

/// A text whose first process has neither a node nor a time: the node is missed first.
pub fn process_without_node_and_time(alloc: Global, bytes: &[u8]) -> Result<Instance, TextError>
    ensures { (table : Members) (tables : Tables) (cluster : Cluster) (nodes : List Node)
        (name : List ℕ) (others : List Members)
        → IsDocument bytes.now table → stated_tables table ≡ Ok tables
        → cluster_of tables.cluster ≡ Ok cluster → nodes_of tables.nodes ≡ Ok nodes
        → tables.processes ≡ member (codes "name") (string name) no_members ∷ others
        → IsErrAnd result (λ e. e ≢ TextError.OutOfMemory
        → e ≡ TextError.MissingKey (Place.Process 0) Key.Node) }
{
    read(alloc, bytes)
}

/// The first process of a text is on the node that has the name which it states as its node's.
pub fn node_of_first_process(alloc: Global, bytes: &[u8]) -> Result<Instance, TextError>
    ensures { (table : Members) (tables : Tables) (process : Members) (others : List Members)
        (name : List ℕ)
        → IsDocument bytes.now table → stated_tables table ≡ Ok tables
        → tables.processes ≡ process ∷ others
        → get_member (codes "node") process ≡ Some (string name)
        → IfOk result (λ i. (node_at i (node_of i 0)).name ≡ name) }
{
    read(alloc, bytes)
}
