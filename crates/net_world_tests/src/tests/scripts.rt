//! Whole scripts, and what they print.

/// The stored run: a trigger with the cut, and a check that finds nothing.
pub const STORED: &str = "\
servers 1\n\
begin\n\
[a]\n\
rw=write\n\
bs=512\n\
size=1k\n\
iodepth=2\n\
.\n\
deliver 0\n\
deliver 1\n\
deliver 2\n\
deliver 3\n\
issue 0 0\n\
issue 0 0\n\
land 0 0 0 all\n\
done 0 0 0\n\
trigger 1 cut\n\
deliver 4\n\
deliver 5\n\
deliver 6\n\
cut 0\n\
restart 0\n\
verify 1\n\
[a]\n\
rw=read\n\
bs=512\n\
size=1k\n\
verify_state_load=1\n\
.\n\
deliver 7\n\
deliver 8\n\
deliver 9\n\
check 0 0\n\
deliver 10\n";

pub const STORED_LINES: &str = "\
ok\n\
ok run 1\n\
sent 0 client 0 Jobs 62\n\
ok\n\
sent 1 0 client JobsOk 28\n\
ok\n\
sent 2 client 0 Start 24\n\
ok\n\
sent 3 0 client Started 24\n\
ok\n\
ok write 0 block 0\n\
ok write 1 block 1\n\
ok\n\
ok\n\
ok\n\
sent 4 client 0 Trigger 25\n\
ok\n\
sent 5 0 client State 156\n\
ok\n\
sent 6 client 0 StateAck 28\n\
ok\n\
act cut 0\n\
ok\n\
ok\n\
ok attempt 1\n\
sent 7 client 0 Verify 79\n\
ok\n\
sent 8 0 client WantState 36\n\
ok\n\
sent 9 client 0 Saved 160\n\
ok\n\
ok report checked 1 faults 0 end whole first -\n\
sent 10 0 client Report 57\n\
ok\n";

/// Two jobs and each answer of `issue`, a write that fails and one that never lands, requests that are
/// asked again and such as are answered, a cut within a save, and a check that ends at its first fault.
pub const ANSWERS: &str = "\
servers 1\n\
begin\n\
[a]\n\
rw=write\n\
bs=512\n\
size=1k\n\
io_size=2k\n\
iodepth=2\n\
x_window=2\n\
[b]\n\
rw=write\n\
bs=512\n\
size=512\n\
io_size=1k\n\
iodepth=2\n\
.\n\
deliver 0\n\
deliver 1\n\
tick\n\
deliver 2\n\
deliver 4\n\
tick\n\
issue 0 0\n\
issue 0 0\n\
issue 0 0\n\
land 0 0 1 all\n\
done 0 0 1\n\
issue 0 0\n\
issue 0 1\n\
issue 0 1\n\
fail 0 0 0\n\
issue 0 0\n\
land 0 1 0 all\n\
done 0 1 0\n\
issue 0 1\n\
done 0 1 1\n\
issue 0 1\n\
trigger 1\n\
deliver 5\n\
deliver 6\n\
cutold deliver 7\n\
deliver 7\n\
restart client\n\
deliver 7\n\
deliver 8\n\
deliver 9\n\
stop 1\n\
deliver 10\n\
deliver 11\n\
verify 1\n\
[a]\n\
rw=read\n\
bs=512\n\
size=1k\n\
io_size=2k\n\
iodepth=2\n\
x_window=2\n\
verify_state_load=1\n\
verify_fatal=1\n\
[b]\n\
rw=read\n\
bs=512\n\
size=512\n\
io_size=1k\n\
iodepth=2\n\
verify_state_load=1\n\
verify_fatal=1\n\
.\n\
deliver 12\n\
deliver 13\n\
deliver 14\n\
deliver 15\n\
deliver 16\n\
check 0 0\n\
check 0 1\n";

pub const ANSWERS_LINES: &str = "\
ok\n\
ok run 1\n\
sent 0 client 0 Jobs 134\n\
ok\n\
sent 1 0 client JobsOk 28\n\
ok\n\
sent 2 client 0 Start 24\n\
ok\n\
sent 3 client 0 Start 24\n\
ok\n\
sent 4 0 client Started 24\n\
ok\n\
ok\n\
ok write 0 block 0\n\
ok write 1 block 1\n\
ok full\n\
ok\n\
ok\n\
ok held\n\
ok write 0 block 0\n\
ok overlap\n\
ok\n\
ok stopped\n\
ok\n\
ok\n\
ok write 1 block 0\n\
ok\n\
ok finished\n\
ok\n\
sent 5 client 0 Trigger 25\n\
ok\n\
sent 6 0 client State 156\n\
sent 7 0 client State 156\n\
ok\n\
sent 8 client 0 StateAck 28\n\
ok\n\
refused 81 NodeOff\n\
ok\n\
ok\n\
sent 9 client 0 StateAck 28\n\
ok\n\
ok\n\
ok\n\
sent 10 client 0 Stop 24\n\
ok\n\
sent 11 0 client Stopped 24\n\
ok\n\
ok attempt 1\n\
sent 12 client 0 Verify 210\n\
ok\n\
sent 13 0 client WantState 36\n\
sent 14 0 client WantState 36\n\
ok\n\
sent 15 client 0 Saved 160\n\
ok\n\
sent 16 client 0 Saved 160\n\
ok\n\
ok\n\
ok report checked 1 faults 0 end whole first -\n\
sent 17 0 client Report 57\n\
ok report checked 1 faults 1 end fault first 0\n\
sent 18 0 client Report 61\n";

/// A text of 2,000 bytes, which goes out in pieces twice: of one sending the first piece comes, of the
/// other the second.
pub const PIECES: &str = "\
servers 1\n\
begin\n\
[a]\n\
rw=write\n\
bs=512\n\
size=1k\n\
iodepth=2\n\
#xxxxxxxxxxxxxxxxxxxxxxxxxxxxxxxxxxxxxxxxxxxxxxxxxxxxxxxxxxxxxxxxxxxxxxxxxxxxxxxxxxxxxxxxxxxxxxxx\n\
#xxxxxxxxxxxxxxxxxxxxxxxxxxxxxxxxxxxxxxxxxxxxxxxxxxxxxxxxxxxxxxxxxxxxxxxxxxxxxxxxxxxxxxxxxxxxxxxx\n\
#xxxxxxxxxxxxxxxxxxxxxxxxxxxxxxxxxxxxxxxxxxxxxxxxxxxxxxxxxxxxxxxxxxxxxxxxxxxxxxxxxxxxxxxxxxxxxxxx\n\
#xxxxxxxxxxxxxxxxxxxxxxxxxxxxxxxxxxxxxxxxxxxxxxxxxxxxxxxxxxxxxxxxxxxxxxxxxxxxxxxxxxxxxxxxxxxxxxxx\n\
#xxxxxxxxxxxxxxxxxxxxxxxxxxxxxxxxxxxxxxxxxxxxxxxxxxxxxxxxxxxxxxxxxxxxxxxxxxxxxxxxxxxxxxxxxxxxxxxx\n\
#xxxxxxxxxxxxxxxxxxxxxxxxxxxxxxxxxxxxxxxxxxxxxxxxxxxxxxxxxxxxxxxxxxxxxxxxxxxxxxxxxxxxxxxxxxxxxxxx\n\
#xxxxxxxxxxxxxxxxxxxxxxxxxxxxxxxxxxxxxxxxxxxxxxxxxxxxxxxxxxxxxxxxxxxxxxxxxxxxxxxxxxxxxxxxxxxxxxxx\n\
#xxxxxxxxxxxxxxxxxxxxxxxxxxxxxxxxxxxxxxxxxxxxxxxxxxxxxxxxxxxxxxxxxxxxxxxxxxxxxxxxxxxxxxxxxxxxxxxx\n\
#xxxxxxxxxxxxxxxxxxxxxxxxxxxxxxxxxxxxxxxxxxxxxxxxxxxxxxxxxxxxxxxxxxxxxxxxxxxxxxxxxxxxxxxxxxxxxxxx\n\
#xxxxxxxxxxxxxxxxxxxxxxxxxxxxxxxxxxxxxxxxxxxxxxxxxxxxxxxxxxxxxxxxxxxxxxxxxxxxxxxxxxxxxxxxxxxxxxxx\n\
#xxxxxxxxxxxxxxxxxxxxxxxxxxxxxxxxxxxxxxxxxxxxxxxxxxxxxxxxxxxxxxxxxxxxxxxxxxxxxxxxxxxxxxxxxxxxxxxx\n\
#xxxxxxxxxxxxxxxxxxxxxxxxxxxxxxxxxxxxxxxxxxxxxxxxxxxxxxxxxxxxxxxxxxxxxxxxxxxxxxxxxxxxxxxxxxxxxxxx\n\
#xxxxxxxxxxxxxxxxxxxxxxxxxxxxxxxxxxxxxxxxxxxxxxxxxxxxxxxxxxxxxxxxxxxxxxxxxxxxxxxxxxxxxxxxxxxxxxxx\n\
#xxxxxxxxxxxxxxxxxxxxxxxxxxxxxxxxxxxxxxxxxxxxxxxxxxxxxxxxxxxxxxxxxxxxxxxxxxxxxxxxxxxxxxxxxxxxxxxx\n\
#xxxxxxxxxxxxxxxxxxxxxxxxxxxxxxxxxxxxxxxxxxxxxxxxxxxxxxxxxxxxxxxxxxxxxxxxxxxxxxxxxxxxxxxxxxxxxxxx\n\
#xxxxxxxxxxxxxxxxxxxxxxxxxxxxxxxxxxxxxxxxxxxxxxxxxxxxxxxxxxxxxxxxxxxxxxxxxxxxxxxxxxxxxxxxxxxxxxxx\n\
#xxxxxxxxxxxxxxxxxxxxxxxxxxxxxxxxxxxxxxxxxxxxxxxxxxxxxxxxxxxxxxxxxxxxxxxxxxxxxxxxxxxxxxxxxxxxxxxx\n\
#xxxxxxxxxxxxxxxxxxxxxxxxxxxxxxxxxxxxxxxxxxxxxxxxxxxxxxxxxxxxxxxxxxxxxxxxxxxxxxxxxxxxxxxxxxxxxxxx\n\
#xxxxxxxxxxxxxxxxxxxxxxxxxxxxxxxxxxxxxxxxxxxxxxxxxxxxxxxxxxxxxxxxxxxxxxxxxxxxxxxxxxxxxxxxxxxxxxxx\n\
#xxxxxxxxxxxxxxxxxxxxxxxxxxxxxxxxxxxxxxxxxxxxxxxxxxxxxxxxxxxxxxxxxxxxxxxxxxxxxxxxxxxxxxxxxxxxxxxx\n\
#\n\
.\n\
tick\n\
deliver 0\n\
deliver 3\n";

pub const PIECES_LINES: &str = "\
ok\n\
ok run 1\n\
sent 0 client 0 Piece 1073\n\
sent 1 client 0 Piece 1033\n\
ok\n\
sent 2 client 0 Piece 1073\n\
sent 3 client 0 Piece 1033\n\
ok\n\
ok\n\
sent 4 0 client JobsOk 28\n";
