//! How the first user of a member is found from what the jobs and the lock table tell apart: contracts of functions that do nothing.
ghost use Rattle.std.specs.Prelude.{◌≡◌, ℕ, List, None, [], ◌∷◌, filter};
ghost use Rattle.lock_table.specs.Lock.{is_boundary_in};
ghost use Rattle.lock_table.specs.Table.{least_job};
ghost use Rattle.library_model.specs.Named.{Named};
ghost use Rattle.lawful_states.specs.State.{Memory, MemberStatus};
ghost use Rattle.lawful_states.specs.Checkpoint.{lesser};
ghost use Rattle.lawful_states.specs.Uses.{changer_of_any, user_of, user_of_any, user_of_logical};
ghost use Rattle.lawful_states.specs.Jobs.{AreOfJobs};
ghost use Rattle.job_table.specs.Users.{first_changer, first_opener, first_user, least_of_members};

/// The user of a member is the lesser of its first user among the jobs and the least job that keeps a lock in it to the
/// boundary, and the user of one of many members is the least of their users.
pub fn users_are_joined()
    ensures user { (member : ℕ) (m : Memory) → AreOfJobs m.jobs m.locks → user_of member m ≡ lesser (first_user member m.jobs) (least_job (filter (is_boundary_in member) m.locks)) }
    ensures any { (members : Named MemberStatus) (m : Memory) → user_of_any members m ≡ least_of_members (λ number. user_of number m) members }
{}

/// The first job that has changed one of some members in its open commit cycle is the least of those that have changed each. The user
/// of a logical file over them is the lesser of that one and of the first job that has an open of the file.
pub fn view_users_are_joined()
    ensures none { (m : Memory) → changer_of_any [] m ≡ None }
    ensures changer { (member : ℕ) (members : List ℕ) (m : Memory) → changer_of_any (member ∷ members) m ≡ lesser (first_changer member m.jobs) (changer_of_any members m) }
    ensures user { (file : List ℕ) (members : List ℕ) (m : Memory) → user_of_logical file members m ≡ lesser (first_opener file m.jobs) (changer_of_any members m) }
{}
