// The office table that the words name.
ghost use Rattle.std.specs.Prelude.{◌≡◌, Err, IfOk, IfSome, false, true};
ghost use Rattle.ow_traits.specs.Prewarms.{AreWantsSized};
ghost use Rattle.ow_traits.specs.Streams.{Rose};
ghost use Rattle.ow_tenant.specs.Reading.{ReadsUpTo, Tells, TellsTable as TellsBytes, most_read};
ghost use Rattle.ow_tenant.specs.Table.{IsPoolSized, table_of as table_of_text};
ghost use Rattle.ow_office.specs.Table.{rows_named, unread};

use ow_command_line::Status;
use ow_tenant::{TenantRefusal, Tenants};
use ow_traits::{MemorySource, Source};
use std::alloc::Global;

/// Reads the office table. Where the words name none it has no rows, and the source isn't touched.
pub(crate) fn read_table<T: Source>(
    alloc: Global,
    named: bool,
    table: &mut T,
) -> Result<Tenants, TenantRefusal>
    ensures told { IfSome (rows_named named (T.left table.old)) (λ text. Tells (table_of_text text) result) }
    ensures reads { named ≡ true → TellsBytes (T.left table.old) (T.left table.new) result }
    ensures most { named ≡ true → ReadsUpTo most_read (T.left table.old) (T.left table.new) }
    ensures sized { IfOk result (λ t. AreWantsSized t.wants) }
    ensures pool { IfOk result (λ t. IsPoolSized t.pool) }
    ensures cause { result ≡ Err TenantRefusal.ReadFault → Rose (T.faults table.old) (T.faults table.new) }
    ensures unnamed { named ≡ false → table.new ≡ table.old }
{
    if named {
        return Tenants::read(alloc, table);
    }
    let mut none = MemorySource::new(Vec::new(alloc), Vec::new(alloc));
    match Tenants::read(alloc, &mut none) {
        Ok(tenants) => Ok(tenants),
        Err(_) => Err(TenantRefusal::NoMemory),
    }
}

/// How the command ends where its table isn't read.
pub(crate) fn unread(refusal: TenantRefusal) -> Status
    ensures { result ≡ unread refusal }
{
    match refusal {
        TenantRefusal::BadRow { row } => Status::BadTable { row },
        TenantRefusal::ReadFault => Status::ReadFault,
        TenantRefusal::NoMemory | TenantRefusal::UnknownKey | TenantRefusal::NotGranted => {
            Status::NoMemory
        }
    }
}
