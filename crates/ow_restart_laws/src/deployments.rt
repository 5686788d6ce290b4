// Deployments. The functions do nothing: their contracts are the laws.
ghost use Rattle.ow_restart_laws.specs.Deployments.{DeploymentsLeaveOtherRows, DraftsLeaveOtherRows, RepeatedDeploymentsChangeNothing, RepeatedDraftsChangeNothing, UnchangedRowsAreEqual};

use ow_traits::Keeper;

/// A deployment that is carried out a second time, right after the first, changes nothing: it makes and changes no row, leaves each draft
/// out, and commits nothing to the store. No two of its drafts may have the same kind and name.
pub fn repeated_deployments_change_nothing<P: Keeper>()
    ensures drafts { RepeatedDraftsChangeNothing }
    ensures calls { RepeatedDeploymentsChangeNothing P.telling }
{}

/// Whatever comes of a deployment, it leaves each row whose kind and name no draft has. None appears under such a kind and name either.
pub fn deployments_leave_other_rows<P: Keeper>()
    ensures drafts { DraftsLeaveOtherRows }
    ensures calls { DeploymentsLeaveOtherRows P.telling }
{}

/// A draft is left out only where its row is the old one, up to the version: rows whose texts are equal are equal.
pub fn unchanged_rows_are_equal()
    ensures { UnchangedRowsAreEqual }
{}
