//! An example, computed. Its function does nothing: it states the example, and is proved by computing it.
ghost use Rattle.std.specs.Prelude.{◌≡◌, map};
ghost use Rattle.avl_tree.specs.Search.{fewest_nodes, first_heights, least};

/// The least number of nodes of a balanced tree, for the heights 0 to 19.
pub fn least_nodes()
    ensures { map least first_heights ≡ fewest_nodes }
{}
