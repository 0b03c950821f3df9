// Names with what is known of each.
ghost use Rattle.std.specs.Prelude.{◌≡◌, OnOk};
ghost use Rattle.kp_lint.specs.Tables.{value_of, with_first};

use kp_ast::Name;
use kp_base::NoMemory;
use std::collections::HashMap;

/// Names with what is known of each, which is looked up in about constant time.
pub(crate) type Table<V> = HashMap<Name, V>;

/// Notes a value for a name that has none yet. The only error is out of memory.
pub(crate) fn note<V: Copy>(table: &mut Table<V>, name: &Name, value: V) -> Result<(), NoMemory>
    ensures { OnOk result (value_of table.new.entries ≡ with_first (value_of table.old.entries) name.now value) }
{
    if table.get(name).is_some() {
        return Ok(());
    }
    table.insert(name.clone()?, value)?;
    Ok(())
}
