// Where the parts of a session lie, for so many variables and clauses. No other module of the product has these numbers.
ghost use Rattle.std.specs.Prelude.{◌≡◌, ◌≤◌};
ghost use Rattle.book.specs.Formula.{max_variables, max_clauses};
ghost use Rattle.layout.specs.Layout.{levels_at, values_at, watches_at, pointers_at, checks_at, heads_at, links_at, required_length, value_slot, watch_slot, head_slot, link_slot, clause_of_node};

use book::limits::{MAX_CLAUSES, MAX_VARIABLES};

// The numbers of the header.
pub const LENGTH: usize = 0;

pub const DECISIONS: usize = 1;

pub const CONFLICT: usize = 2;

pub const BACKTRACKS: usize = 3;

pub const FIXED: usize = 4;

// The first literal of the trail.
pub const TRAIL: usize = 5;

pub fn levels_at(variables: usize) -> usize
    requires { variables ≤ max_variables }
    ensures { result ≡ levels_at variables }
{
    TRAIL + variables
}

pub fn values_at(variables: usize) -> usize
    requires { variables ≤ max_variables }
    ensures { result ≡ values_at variables }
{
    TRAIL + 2 * variables
}

pub fn watches_at(variables: usize) -> usize
    requires { variables ≤ max_variables }
    ensures { result ≡ watches_at variables }
{
    TRAIL + 3 * variables
}

pub fn pointers_at(variables: usize, clauses: usize) -> usize
    requires { (variables ≤ max_variables) × (clauses ≤ max_clauses) }
    ensures { result ≡ pointers_at variables clauses }
{
    TRAIL + 3 * variables + 2 * clauses
}

pub fn checks_at(variables: usize, clauses: usize) -> usize
    requires { (variables ≤ max_variables) × (clauses ≤ max_clauses) }
    ensures { result ≡ checks_at variables clauses }
{
    TRAIL + 3 * variables + 3 * clauses
}

fn heads_at(variables: usize, clauses: usize) -> usize
    requires { (variables ≤ max_variables) × (clauses ≤ max_clauses) }
    ensures { result ≡ heads_at variables clauses }
{
    TRAIL + 3 * variables + 4 * clauses
}

fn links_at(variables: usize, clauses: usize) -> usize
    requires { (variables ≤ max_variables) × (clauses ≤ max_clauses) }
    ensures { result ≡ links_at variables clauses }
{
    TRAIL + 5 * variables + 4 * clauses
}

// The place of the value of a literal's variable.
pub fn value_slot(variables: usize, literal: u32) -> usize
    requires { (variables ≤ max_variables) × (2 ≤ literal) }
    ensures { result ≡ value_slot variables literal }
{
    values_at(variables) + ((literal >> 1) as usize - 1)
}

// The place of a node's watch.
pub fn watch_slot(variables: usize, node: u32) -> usize
    requires { (variables ≤ max_variables) × (1 ≤ node) }
    ensures { result ≡ watch_slot variables node }
{
    watches_at(variables) + (node as usize - 1)
}

// The clause that a node is of.
pub fn clause_of_node(node: u32) -> usize
    requires { 1 ≤ node }
    ensures { result ≡ clause_of_node node }
{
    (node as usize - 1) >> 1
}

// The place of the head of a literal's list.
pub fn head_slot(variables: usize, clauses: usize, literal: u32) -> usize
    requires { (variables ≤ max_variables) × (clauses ≤ max_clauses) × (2 ≤ literal) }
    ensures { result ≡ head_slot variables clauses literal }
{
    heads_at(variables, clauses) + (literal as usize - 2)
}

// The place of a node's link.
pub fn link_slot(variables: usize, clauses: usize, node: u32) -> usize
    requires { (variables ≤ max_variables) × (clauses ≤ max_clauses) × (1 ≤ node) }
    ensures { result ≡ link_slot variables clauses node }
{
    links_at(variables, clauses) + (node as usize - 1)
}

// The required length (the paper's need).
pub fn required_length(variables: usize, clauses: usize) -> usize
    requires { (variables ≤ max_variables) × (clauses ≤ max_clauses) }
    ensures { result ≡ required_length variables clauses }
{
    TRAIL + 5 * variables + 6 * clauses
}

// The same for the largest book.
pub const MAX_SESSION: usize = TRAIL + 5 * MAX_VARIABLES + 6 * MAX_CLAUSES;
