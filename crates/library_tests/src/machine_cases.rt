/// Changes of the built-in machine's table, and what the reader answers to them: `accepted`, or the
/// code of the refusal and the words after its name.
pub const TABLES: &str = r##"-version => 12 version
version=3 => 13 version
whole={"version":1,} => 11
whole={} x => 11
whole={'version':1} => 11
gap=010 => 11
ports=[{"name":"<32*é>","controller":1,"qubits":[0]}] ; frames=[] ; families={} => accepted
ports=[{"name":"<33*é>","controller":1,"qubits":[0]}] => 13 ports 0
-qubits => 12 qubits
-frames => 12 frames
qubits=1 ; ports=[{"name":"p","controller":1,"qubits":[0]}] ; frames=[] ; families={} => accepted
qubits=32 ; ports=[{"name":"p","controller":1,"qubits":[0,1,2,3,4,5,6,7,8,9,10,11,12,13,14,15,16,17,18,19,20,21,22,23,24,25,26,27,28,29,30,31]}] ; frames=[] ; families={} => accepted
qubits=32 ; ports=[{"name":"p","controller":1,"qubits":[31]}] ; frames=[] ; families={} => accepted
qubits=32 ; ports=[{"name":"p","controller":1,"qubits":[32]}] ; frames=[] ; families={} => 16 ports 0
controllers=["hub"] ; ports=[] ; frames=[] ; families={} => accepted
controllers=["hub",<15:"acquire">] ; ports=[{"name":"p","controller":15,"qubits":[0]}] ; frames=[] ; families={} => accepted
controllers=["hub",<15:"acquire">] ; ports=[{"name":"p","controller":16,"qubits":[0]}] ; frames=[] ; families={} => 15 ports 0
controllers=["hub",<16:"acquire">] => 13 controllers
ports=[{"controller":1,"qubits":[0]}] => 12 ports 0
ports=[{"name":7,"controller":1,"qubits":[0]}] => 13 ports 0
ports=[{"name":"p","name":"q","controller":1,"qubits":[0]},{"name":"p","controller":1,"qubits":[0]}] ; frames=[] ; families={} => accepted
ports=[{"name":"p","controller":"1","qubits":[0]}] => 13 ports 0
ports=[{"name":"p","controller":18446744073709551615,"qubits":[0]}] => 15 ports 0
ports=[{"name":"p","controller":18446744073709551616,"qubits":[0]}] => 13 ports 0
ports=[{"name":"p","controller":1,"qubits":0}] => 13 ports 0
ports=[{"name":"p","controller":1,"qubits":["0"]}] => 13 ports 0
ports=[{"name":"p","controller":1,"qubits":[0,1,0]}] => 13 ports 0
frames=[{"name":"f","frequency":5,"phase":0}] => 12 frames 0
frames=[{"name":7,"port":"d0","frequency":5,"phase":0}] => 13 frames 0
frames=[{"name":"if","port":"d0","frequency":5,"phase":0}] => 13 frames 0
frames=[{"name":"<64*f>","port":"d0","frequency":5,"phase":0}] ; families={} => accepted
frames=[{"name":"<65*f>","port":"d0","frequency":5,"phase":0}] => 13 frames 0
frames=[{"name":"f","port":"d0","frequency":1099511627776,"phase":0}] => 13 frames 0
frames=[{"name":"f","port":"d0","frequency":5,"phase":4294967296}] => 13 frames 0
frames=[{"name":"f","port":"d0","frequency":5,"phase":"0"}] => 13 frames 0
frames=[{"name":"f","port":"d0","frequency":5,"phase":0},{"name":"g","port":"a2","frequency":5,"phase":0},{"name":"f","port":"a2","frequency":5,"phase":0}] => 14 frames 2
waveforms=[{"name":7,"samples":[[0,0]]}] => 13 waveforms 0
waveforms=[{"name":"pi\u0020","samples":[[0,0]]}] => 13 waveforms 0
waveforms=[{"name":"<64*w>","samples":[[0,0]]}] => accepted
waveforms=[{"name":"<65*w>","samples":[[0,0]]}] => 13 waveforms 0
waveforms=[{"name":"w","samples":[[0,-32769]]}] => 13 waveforms 0
waveforms=[{"name":"w","samples":[[32768,0]]}] => 13 waveforms 0
families={"a":5,"a":["d0f","d1f","d2f"]} => accepted
families={"a":["d0f","d1f","d2f"],"a":5} => 13 families a
mail="4" => 13 mail
-gap ; mail=0 => 12 gap
version=2 => 13 version
+version=2 => 13 version
version=2 ; +version=1 => accepted
+dt=0 => 13 dt
dt=true => 13 dt
+qubits=0 => 13 qubits
+controllers=["hub","hub"] => 13 controllers 1
controllers=["hub",1,2] => 13 controllers 1
+ports=1 => 13 ports
ports=[<96:{"name":"p#","controller":1,"qubits":[0]}>] ; frames=[] ; families={} => accepted
ports=[<97:{"name":"p#","controller":1,"qubits":[0]}>] => 13 ports
ports=[<97:0>] => 13 ports
ports=[{"name":"<64*n>","controller":1,"qubits":[0]}] ; frames=[] ; families={} => accepted
ports=[{"name":"<65*n>","controller":1,"qubits":[0]}] => 13 ports 0
ports=[{"name":"p","controller":1.0,"qubits":[0]}] => 13 ports 0
ports=[{"name":"p","controller":4,"qubits":[0,2,1]}] ; frames=[] ; families={} => accepted
ports=[{"name":"p","controller":1,"qubits":[40,40]}] => 13 ports 0
ports=[{"name":"p","controller":9,"qubits":[40]},7] => 15 ports 0
ports=[{"name":"p","controller":1,"qubits":[<33:0>]}] => 13 ports 0
+frames=1 => 13 frames
frames=[<256:{"name":"f#","port":"d0","frequency":0,"phase":0}>] ; families={} => accepted
frames=[<257:{"name":"f#","port":"d0","frequency":0,"phase":0}>] => 13 frames
frames=[{"name":"f","port":"d0","frequency":1099511627775,"phase":4294967295}] ; families={} => accepted
frames=[{"name":"f","port":"d0","frequency":-0,"phase":0}] => 13 frames 0
frames=[{"name":"f","port":"zz","frequency":0,"phase":0},{}] => 17 frames 0
+waveforms=1 => 13 waveforms
waveforms=[<256:{"name":"w#","samples":[[0,0]]}>] => accepted
waveforms=[<257:{"name":"w#","samples":[[0,0]]}>] => 13 waveforms
waveforms=[{"name":"w","samples":[<4096:[-32768,32767]>]}] => accepted
waveforms=[{"name":"w","samples":[<4097:[0,0]>]}] => 13 waveforms 0
waveforms=[{"name":"w","samples":[[-32769,0]]}] => 13 waveforms 0
waveforms=[{"name":"w","samples":[[0]]}] => 13 waveforms 0
waveforms=[{"name":"w","samples":[[0,-0]]}] => 13 waveforms 0
waveforms=[{"name":"w","samples":[[0,0],0]},{"name":"w","samples":[[0,0]]}] => 13 waveforms 0
+families=1 => 13 families
families={"a":["d0f","d1f"],"b":5} => 18 families a
families={"a":["d0f",1]} => 13 families a
families={"<64*a>":["d0f","d1f","a2f"]} => accepted
families={"a":["d0f","d1f","zz"],"A":["d0f","d1f","d2f"]} => 18 families a
families={"a":["d0f","d1f","d2f","d2f"]} => 18 families a
gap=-0 => 13 gap
gap=1e1 => 13 gap
gap=99999999999999999999 => 13 gap
gap=1e400 => 11
+gap=-1 => 13 gap
+budget=0 => 13 budget
+mail=0 => 13 mail
+m\u0061il=0 => 13 mail
mail=0 ; +m\u0061il=64 => accepted
+cal=1 => 13 cal
cal="\ud800" => 11
cal="<1048576*x>" => accepted
cal="<1048577*x>" => 13 cal
zz=<126*[><126*]> => accepted
zz=<127*[><127*]> => 11
whole=  => 11
whole=[] => 11
whole=null => 11
zz=[1,{"a":null}] ; Version=7 => accepted
whole={} => 12 version
-dt => 12 dt
-controllers => 12 controllers
-ports => 12 ports
-mail => 12 mail
-gap ; -mail => 12 gap
ports=[{"name":"d0","controller":1,"qubits":[0]},{"name":"d1","controller":2,"qubits":[1]},{"name":"d2","controller":3},{"name":"a0","controller":4,"qubits":[0]},{"name":"a1","controller":4,"qubits":[1]},{"name":"a2","controller":4,"qubits":[2]}] => 12 ports 2
ports=[{"name":1}] => 12 ports 0
frames=[{"name":"d0f","port":"d0","frequency":5000000000,"phase":0},{"name":"d1f","port":"d1","frequency":5000000000},{"name":"d2f","port":"d2","frequency":5000000000,"phase":0},{"name":"a0f","port":"a0","frequency":5000000000,"phase":0},{"name":"a1f","port":"a1","frequency":5000000000,"phase":0},{"name":"a2f","port":"a2","frequency":5000000000,"phase":0}] => 12 frames 1
waveforms=[{"name":"w4"},{"name":"w8","samples":[[1000,0],[1000,0],[1000,0],[1000,0],[1000,0],[1000,0],[1000,0],[1000,0]]},{"name":"r20","samples":[[1000,0],[1000,0],[1000,0],[1000,0],[1000,0],[1000,0],[1000,0],[1000,0],[1000,0],[1000,0],[1000,0],[1000,0],[1000,0],[1000,0],[1000,0],[1000,0],[1000,0],[1000,0],[1000,0],[1000,0]]}] => 12 waveforms 0
-families ; -cal => accepted
version="1" => 13 version
version=0 => 13 version
dt=0 => 13 dt
dt=1000001 => 13 dt
dt=0.5 => 13 dt
gap=10.0 => 13 gap
qubits=33 => 13 qubits
qubits=0 => 13 qubits
controllers=[] => 13 controllers
controllers=["hub","drive","drive","drive","drive","drive","drive","drive","drive","drive","drive","drive","drive","drive","drive","drive","drive"] => 13 controllers
controllers=["hub","hub"] => 13 controllers 1
controllers=["drive","hub"] => 13 controllers 0
controllers=["hub","drive","flux"] => 13 controllers 2
ports={} => 13 ports
ports=["d0"] => 13 ports 0
ports=[{"name":"d0","controller":1,"qubits":[0]},{"name":"measure","controller":2,"qubits":[1]},{"name":"d2","controller":3,"qubits":[2]},{"name":"a0","controller":4,"qubits":[0]},{"name":"a1","controller":4,"qubits":[1]},{"name":"a2","controller":4,"qubits":[2]}] => 13 ports 1
ports=[{"name":"d 0","controller":1,"qubits":[0]},{"name":"d1","controller":2,"qubits":[1]},{"name":"d2","controller":3,"qubits":[2]},{"name":"a0","controller":4,"qubits":[0]},{"name":"a1","controller":4,"qubits":[1]},{"name":"a2","controller":4,"qubits":[2]}] => 13 ports 0
ports=[{"name":"aaaaaaaaaaaaaaaaaaaaaaaaaaaaaaaaaaaaaaaaaaaaaaaaaaaaaaaaaaaaaaaaa","controller":1,"qubits":[0]},{"name":"d1","controller":2,"qubits":[1]},{"name":"d2","controller":3,"qubits":[2]},{"name":"a0","controller":4,"qubits":[0]},{"name":"a1","controller":4,"qubits":[1]},{"name":"a2","controller":4,"qubits":[2]}] => 13 ports 0
ports=[{"name":"d0","controller":0,"qubits":[0]},{"name":"d1","controller":2,"qubits":[1]},{"name":"d2","controller":3,"qubits":[2]},{"name":"a0","controller":4,"qubits":[0]},{"name":"a1","controller":4,"qubits":[1]},{"name":"a2","controller":4,"qubits":[2]}] => 13 ports 0
ports=[{"name":"d0","controller":1,"qubits":[]},{"name":"d1","controller":2,"qubits":[1]},{"name":"d2","controller":3,"qubits":[2]},{"name":"a0","controller":4,"qubits":[0]},{"name":"a1","controller":4,"qubits":[1]},{"name":"a2","controller":4,"qubits":[2]}] => 13 ports 0
ports=[{"name":"d0","controller":1,"qubits":[0,0]},{"name":"d1","controller":2,"qubits":[1]},{"name":"d2","controller":3,"qubits":[2]},{"name":"a0","controller":4,"qubits":[0]},{"name":"a1","controller":4,"qubits":[1]},{"name":"a2","controller":4,"qubits":[2]}] => 13 ports 0
ports=[{"name":"d0","controller":1,"qubits":[-1]},{"name":"d1","controller":2,"qubits":[1]},{"name":"d2","controller":3,"qubits":[2]},{"name":"a0","controller":4,"qubits":[0]},{"name":"a1","controller":4,"qubits":[1]},{"name":"a2","controller":4,"qubits":[2]}] => 13 ports 0
frames=[{"name":"d0f","port":"d0","frequency":5000000000,"phase":0},{"name":"d1f","port":"d1","frequency":5000000000,"phase":0},{"name":"d2f","port":"d2","frequency":5000000000,"phase":0},{"name":"a0f","port":"a0","frequency":1099511627776,"phase":0},{"name":"a1f","port":"a1","frequency":5000000000,"phase":0},{"name":"a2f","port":"a2","frequency":5000000000,"phase":0}] => 13 frames 3
frames=[{"name":"d0f","port":"d0","frequency":5000000000,"phase":0},{"name":"d1f","port":"d1","frequency":5000000000,"phase":0},{"name":"d2f","port":"d2","frequency":5000000000,"phase":0},{"name":"a0f","port":"a0","frequency":5000000000,"phase":4294967296},{"name":"a1f","port":"a1","frequency":5000000000,"phase":0},{"name":"a2f","port":"a2","frequency":5000000000,"phase":0}] => 13 frames 3
frames=[{"name":"d0f","port":0,"frequency":5000000000,"phase":0},{"name":"d1f","port":"d1","frequency":5000000000,"phase":0},{"name":"d2f","port":"d2","frequency":5000000000,"phase":0},{"name":"a0f","port":"a0","frequency":5000000000,"phase":0},{"name":"a1f","port":"a1","frequency":5000000000,"phase":0},{"name":"a2f","port":"a2","frequency":5000000000,"phase":0}] => 13 frames 0
waveforms=[{"name":"w4","samples":[[1000,0],[1000,0],[1000,0],[1000,0]]},{"name":"w8","samples":[]},{"name":"r20","samples":[[1000,0],[1000,0],[1000,0],[1000,0],[1000,0],[1000,0],[1000,0],[1000,0],[1000,0],[1000,0],[1000,0],[1000,0],[1000,0],[1000,0],[1000,0],[1000,0],[1000,0],[1000,0],[1000,0],[1000,0]]}] => 13 waveforms 1
waveforms=[{"name":"w4","samples":[[1000,0],[1000,0],[1000,0],[1000,0]]},{"name":"w8","samples":[[0,32768]]},{"name":"r20","samples":[[1000,0],[1000,0],[1000,0],[1000,0],[1000,0],[1000,0],[1000,0],[1000,0],[1000,0],[1000,0],[1000,0],[1000,0],[1000,0],[1000,0],[1000,0],[1000,0],[1000,0],[1000,0],[1000,0],[1000,0]]}] => 13 waveforms 1
waveforms=[{"name":"w4","samples":[[1000,0],[1000,0],[1000,0],[1000,0]]},{"name":"w8","samples":[[0,0,0]]},{"name":"r20","samples":[[1000,0],[1000,0],[1000,0],[1000,0],[1000,0],[1000,0],[1000,0],[1000,0],[1000,0],[1000,0],[1000,0],[1000,0],[1000,0],[1000,0],[1000,0],[1000,0],[1000,0],[1000,0],[1000,0],[1000,0]]}] => 13 waveforms 1
waveforms=[{"name":"w4","samples":[[1000,0],[1000,0],[1000,0],[1000,0]]},{"name":"w8","samples":[[0.5,0]]},{"name":"r20","samples":[[1000,0],[1000,0],[1000,0],[1000,0],[1000,0],[1000,0],[1000,0],[1000,0],[1000,0],[1000,0],[1000,0],[1000,0],[1000,0],[1000,0],[1000,0],[1000,0],[1000,0],[1000,0],[1000,0],[1000,0]]}] => 13 waveforms 1
families=[] => 13 families
families={"if":["d0f","d1f","d2f"]} => 13 families if
families={"drive":[0,1,2]} => 13 families drive
gap=1048577 => 13 gap
budget=0 => 13 budget
budget=100001 => 13 budget
mail=65 => 13 mail
cal=[] => 13 cal
cal=null => 13 cal
qubits=0 ; gap=-1 ; mail=0 => 13 qubits
ports=[{"name":"d0","controller":1,"qubits":[0]},{"name":"d1","controller":2,"qubits":[1]},{"name":"d2","controller":3,"qubits":[2]},{"name":"a0","controller":4,"qubits":[0]},{"name":"d1","controller":4,"qubits":[1]},{"name":"a2","controller":4,"qubits":[2]}] => 14 ports 4
frames=[{"name":"d0f","port":"d0","frequency":5000000000,"phase":0},{"name":"d1f","port":"d1","frequency":5000000000,"phase":0},{"name":"d2f","port":"d2","frequency":5000000000,"phase":0},{"name":"a0f","port":"a0","frequency":5000000000,"phase":0},{"name":"a1f","port":"a1","frequency":5000000000,"phase":0},{"name":"d0f","port":"a2","frequency":5000000000,"phase":0}] => 14 frames 5
waveforms=[{"name":"w4","samples":[[1000,0],[1000,0],[1000,0],[1000,0]]},{"name":"w8","samples":[[1000,0],[1000,0],[1000,0],[1000,0],[1000,0],[1000,0],[1000,0],[1000,0]]},{"name":"w8","samples":[[1000,0],[1000,0],[1000,0],[1000,0],[1000,0],[1000,0],[1000,0],[1000,0],[1000,0],[1000,0],[1000,0],[1000,0],[1000,0],[1000,0],[1000,0],[1000,0],[1000,0],[1000,0],[1000,0],[1000,0]]}] => 14 waveforms 2
frames=[{"name":"d0f","port":"d0","frequency":5000000000,"phase":0},{"name":"d1f","port":"d1","frequency":5000000000,"phase":0},{"name":"d2f","port":"d2","frequency":5000000000,"phase":0},{"name":"a0f","port":"a0","frequency":5000000000,"phase":0},{"name":"a1f","port":"a1","frequency":5000000000,"phase":0},{"name":"d0","port":"a2","frequency":5000000000,"phase":0}] ; -families ; cal="defcal x q { }" => accepted
ports=[{"name":"d0","controller":1,"qubits":[0]},{"name":"d1","controller":2,"qubits":[1]},{"name":"d2","controller":3,"qubits":[2]},{"name":"a0","controller":4,"qubits":[0]},{"name":"d1","controller":9,"qubits":[1]},{"name":"a2","controller":4,"qubits":[2]}] => 14 ports 4
ports=[{"name":"d0","controller":5,"qubits":[0]},{"name":"d1","controller":2,"qubits":[1]},{"name":"d2","controller":3,"qubits":[2]},{"name":"a0","controller":4,"qubits":[0]},{"name":"a1","controller":4,"qubits":[1]},{"name":"a2","controller":4,"qubits":[2]}] => 15 ports 0
ports=[{"name":"d0","controller":1,"qubits":[0]},{"name":"d1","controller":2,"qubits":[1]},{"name":"d2","controller":3,"qubits":[2]},{"name":"a0","controller":4,"qubits":[0]},{"name":"a1","controller":4,"qubits":[1]},{"name":"a2","controller":16,"qubits":[2]}] => 15 ports 5
ports=[{"name":"d0","controller":1,"qubits":[0]},{"name":"d1","controller":9223372036854775808,"qubits":[1]},{"name":"d2","controller":3,"qubits":[2]},{"name":"a0","controller":4,"qubits":[0]},{"name":"a1","controller":4,"qubits":[1]},{"name":"a2","controller":4,"qubits":[2]}] => 15 ports 1
ports=[{"name":"d0","controller":1,"qubits":[0]},{"name":"d1","controller":7,"qubits":[9]},{"name":"d2","controller":3,"qubits":[2]},{"name":"a0","controller":4,"qubits":[0]},{"name":"a1","controller":4,"qubits":[1]},{"name":"a2","controller":4,"qubits":[2]}] => 15 ports 1
ports=[{"name":"d0","controller":1,"qubits":[3]},{"name":"d1","controller":2,"qubits":[1]},{"name":"d2","controller":3,"qubits":[2]},{"name":"a0","controller":4,"qubits":[0]},{"name":"a1","controller":4,"qubits":[1]},{"name":"a2","controller":4,"qubits":[2]}] => 16 ports 0
ports=[{"name":"d0","controller":1,"qubits":[0,31]},{"name":"d1","controller":2,"qubits":[1]},{"name":"d2","controller":3,"qubits":[2]},{"name":"a0","controller":4,"qubits":[0]},{"name":"a1","controller":4,"qubits":[1]},{"name":"a2","controller":4,"qubits":[2]}] => 16 ports 0
ports=[{"name":"d0","controller":1,"qubits":[0]},{"name":"d1","controller":2,"qubits":[1]},{"name":"d2","controller":3,"qubits":[1099511627776]},{"name":"a0","controller":4,"qubits":[0]},{"name":"a1","controller":4,"qubits":[1]},{"name":"a2","controller":4,"qubits":[2]}] => 16 ports 2
frames=[{"name":"d0f","port":"d0","frequency":5000000000,"phase":0},{"name":"d1f","port":"w4","frequency":5000000000,"phase":0},{"name":"d2f","port":"d2","frequency":5000000000,"phase":0},{"name":"a0f","port":"a0","frequency":5000000000,"phase":0},{"name":"a1f","port":"a1","frequency":5000000000,"phase":0},{"name":"a2f","port":"a2","frequency":5000000000,"phase":0}] => 17 frames 1
frames=[{"name":"d0f","port":"d0","frequency":5000000000,"phase":0},{"name":"d1f","port":"d1","frequency":5000000000,"phase":0},{"name":"d2f","port":"","frequency":5000000000,"phase":0},{"name":"a0f","port":"a0","frequency":5000000000,"phase":0},{"name":"a1f","port":"a1","frequency":5000000000,"phase":0},{"name":"a2f","port":"a2","frequency":5000000000,"phase":0}] => 17 frames 2
ports=[] => 17 frames 0
families={"drive":["d0f","d1f"]} => 18 families drive
families={"drive":["d0f","d1f","zz"]} => 18 families drive
families={"drive":["d0f","d2f","d1f"]} => 18 families drive
ports=[{"name":"d0","controller":1,"qubits":[0,1]},{"name":"d1","controller":2,"qubits":[1]},{"name":"d2","controller":3,"qubits":[2]},{"name":"a0","controller":4,"qubits":[0]},{"name":"a1","controller":4,"qubits":[1]},{"name":"a2","controller":4,"qubits":[2]}] => 18 families drive
families={"z":[],"B":["zz","zz","zz"],"a":[]} => 18 families B
families={"aa":["d0f","d1f","d2f"],"0":5,"z":[]} => 13 families 0
cal="defcal x q { } ?" => accepted
cal="defcal x q { }\ndefcal y q {" => accepted
cal="defcal q $9 { } gate g q { }" => accepted
cal="defcal x q { play(drive(q), w4); } x $0;" => accepted
cal="defcal x q {\n play(drive(q), w5); }" => accepted
cal="defcal x $3 { }" => accepted
cal="defcalgrammar \"openpulse\"; defcal x q { play(drive(q), w4); }" => accepted
cal="defcalgrammar \"pulse\";" => accepted
cal="OPENQASM 3.0; defcal x q { }" => accepted
mail=0 => 13 mail
zz=[[[[[[[[]]]]]]]] => accepted
-waveforms => 12 waveforms
-budget => 12 budget
-families => accepted
-cal => accepted
version=null => 13 version
version=18446744073709551617 => 13 version
dt=1 => accepted
dt=1000000 => accepted
dt=-5 => 13 dt
dt="1000" => 13 dt
qubits=1 => 16 ports 1
qubits=32 => 18 families acquire
qubits="3" => 13 qubits
gap=0 => accepted
gap=1048576 => accepted
gap=null => 13 gap
gap="10" => 13 gap
gap=true => 13 gap
budget=1 => accepted
budget=100000 => accepted
budget=-1 => 13 budget
budget=[100] => 13 budget
mail=1 => accepted
mail=64 => accepted
mail=-1 => 13 mail
controllers={} => 13 controllers
controllers=["hub","drive","drive","drive","drive","drive","drive","drive","drive","drive","drive","drive","drive","drive","drive","drive"] => accepted
controllers=["hub"] => 15 ports 0
controllers=["hub",""] => 13 controllers 1
ports=[{"name":"p","qubits":[0]}] ; frames=[] ; families={} ; cal="" => 12 ports 0
ports=[{"name":"p","controller":1}] ; frames=[] ; families={} ; cal="" => 12 ports 0
ports=[{"name":"","controller":1,"qubits":[0]}] ; frames=[] ; families={} ; cal="" => 13 ports 0
ports=[{"name":"p","controller":1,"qubits":[]}] ; frames=[] ; families={} ; cal="" => 13 ports 0
ports=[{"name":"p","controller":1,"qubits":[0,3]}] ; frames=[] ; families={} ; cal="" => 16 ports 0
ports=[{"name":"p","controller":1,"qubits":[0,1,2,3,4,5,6,7,8,9,10,11,12,13,14,15,16,17,18,19,20,21,22,23,24,25,26,27,28,29,30,31]}] ; frames=[] ; families={} ; cal="" => 16 ports 0
ports=[{"name":"p","controller":9,"qubits":[9]}] ; frames=[] ; families={} ; cal="" => 15 ports 0
ports=[{"name":"p","controller":1,"qubits":[0]},{"name":"p","controller":9,"qubits":[0]}] ; frames=[] ; families={} ; cal="" => 14 ports 1
ports=[{"name":"p","controller":9,"qubits":[0]},{"name":"p","controller":1,"qubits":[0]}] ; frames=[] ; families={} ; cal="" => 15 ports 0
ports=[{"name":"p","controller":1,"qubits":[0],"note":1}] ; frames=[] ; families={} ; cal="" => accepted
frames=null ; families={} ; cal="" => 13 frames
frames=[{"port":"d0","frequency":5,"phase":0}] ; families={} ; cal="" => 12 frames 0
frames=[{"name":"f","port":"d0","phase":0}] ; families={} ; cal="" => 12 frames 0
frames=[{"name":"f","port":null,"frequency":5,"phase":0}] ; families={} ; cal="" => 13 frames 0
frames=[{"name":"f","port":"d0","frequency":5,"phase":0},{"name":"g","port":"zz","frequency":5,"phase":0}] ; families={} ; cal="" => 17 frames 1
frames=[{"name":"f","port":"d0","frequency":5,"phase":4294967295}] ; families={} ; cal="" => accepted
frames=[{"name":"f","port":"d0","frequency":5,"phase":0},{"name":"f","port":"d0","frequency":5,"phase":0}] ; families={} ; cal="" => 14 frames 1
frames=[{"name":"f","port":"d0","frequency":5,"phase":0},{"name":"f","port":"zz","frequency":5,"phase":0}] ; families={} ; cal="" => 14 frames 1
frames=[{"name":"d0","port":"d0","frequency":5,"phase":0}] ; families={} ; cal="" => accepted
frames=[{"name":"f","port":"d0 ","frequency":5,"phase":0}] ; families={} ; cal="" => 17 frames 0
waveforms=[{"samples":[[0,0]]}] ; cal="" => 12 waveforms 0
waveforms=[{"name":"w"}] ; cal="" => 12 waveforms 0
waveforms=[{"name":"w","samples":null}] ; cal="" => 13 waveforms 0
waveforms=[{"name":"w","samples":[0]}] ; cal="" => 13 waveforms 0
waveforms=[{"name":"w","samples":[[0,0]]},{"name":"w","samples":[[0,0]]}] ; cal="" => 14 waveforms 1
waveforms=[] ; cal="" => accepted
waveforms=[{"name":"d0f","samples":[[0,0]]}] ; cal="" => accepted
families=null ; cal="" => 13 families
families={} ; cal="" => accepted
families={"a":"d0f"} ; cal="" => 13 families a
families={"a":["d0f","d1f","zz"]} ; cal="" => 18 families a
families={"a":["a0f","a1f","a2f"]} ; cal="" => accepted
families={"a":[],"B":[]} ; cal="" => 18 families B
families={"aaaaaaaaaaaaaaaaaaaaaaaaaaaaaaaaaaaaaaaaaaaaaaaaaaaaaaaaaaaaaaaaa":[]} ; cal="" => 13 families aaaaaaaaaaaaaaaaaaaaaaaaaaaaaaaaaaaaaaaaaaaaaaaaaaaaaaaaaaaaaaaaa
cal=1 => 13 cal
cal="\n\ndefcal x q { }\n" => accepted
cal="defcal x\rq { }" => accepted
cal="defcal x q { }\n defcal y q { play(zz, w4); }" => accepted
frames=1 ; waveforms=1 => 13 frames
waveforms=1 ; families=1 => 13 waveforms
-version ; dt=0 => 12 version
ports=[{"name":"p","controller":1,"qubits":[0]},{"name":"p","controller":1,"qubits":[0]}] ; frames=1 => 14 ports 1
ports=[{"name":"p","controller":9,"qubits":[0]}] ; -mail => 15 ports 0
frames=[{"name":"f","port":"zz","frequency":5,"phase":0}] ; gap=-1 => 17 frames 0
families={"a":[]} ; budget=0 => 18 families a
ports=[1,1,1,1,1,1,1,1,1,1,1,1,1,1,1,1,1,1,1,1,1,1,1,1,1,1,1,1,1,1,1,1,1,1,1,1,1,1,1,1,1,1,1,1,1,1,1,1,1,1,1,1,1,1,1,1,1,1,1,1,1,1,1,1,1,1,1,1,1,1,1,1,1,1,1,1,1,1,1,1,1,1,1,1,1,1,1,1,1,1,1,1,1,1,1,1,1] => 13 ports
mail=0 ; cal="?" => 13 mail
qubits=2 => 16 ports 2
qubits=4 => 18 families acquire
whole=true => 11
whole={"version":99999999999999999999999} => 13 version
whole={"a":[[{"b":{}}]]} => 12 version
whole={"version":1} => 12 dt
controllers=["hub","drive"] ; ports=[{"name":"d0","controller":1,"qubits":[0]}] ; frames=[{"name":"d0f","port":"d0","frequency":5,"phase":0}] ; families={} ; cal="defcal x $0 { play(d0f, w4); }" => accepted
waveforms=[{"name":"w4","samples":[[1,0]]},{"name":"w4","samples":[[1,0]]}] => 14 waveforms 1
waveforms=[{"name":"w4","samples":"x"}] => 13 waveforms 0
frames=[{"name":"d0f","port":1,"frequency":1,"phase":0}] => 13 frames 0
frames=[{"name":"d0f","port":"d0","frequency":5000000000,"phase":0},{"name":"d2f","port":"d2","frequency":5000000000,"phase":0},{"name":"a0f","port":"a0","frequency":5000000000,"phase":0},{"name":"a1f","port":"a1","frequency":5000000000,"phase":0},{"name":"a2f","port":"a2","frequency":5000000000,"phase":0}] ; gap=1 ; budget=6 ; mail=64 => 18 families drive
ports=[{"name":"d0","controller":300,"qubits":[0]}] => 15 ports 0
frames=[{"name":"d0f","port":"zz","frequency":1,"phase":0}] => 17 frames 0
ports=[{"name":"d0","controller":1,"qubits":[32]}] => 16 ports 0
frames=[{}] => 12 frames 0
whole={"x":[[[[[[[[[[[[[[[[[[[[[[[[[[[[[[[[[[[[[[[[[[[[[[[[[[[[[[[[[[[[[[[[[[[[[[[[[[[[[[[[[[[[[[[[[[[[[[[[[[[[[[[[[[[[[[[[[[[[[[[[[[[[[[[]]]]]]]]]]]]]]]]]]]]]]]]]]]]]]]]]]]]]]]]]]]]]]]]]]]]]]]]]]]]]]]]]]]]]]]]]]]]]]]]]]]]]]]]]]]]]]]]]]]]]]]]]]]]]]]]]]]]]]]]]]]]]]]} => 11"##;

/// The inputs, a tape beside a machine of three qubits, and what the reader answers. `<COUNT*TEXT>`
/// stands for so many copies.
pub const TAPES: &str = r##"bits64 n | {"inputs":{"n":18446744073709551615}} => accepted
bits64 n | {"inputs":{"n":18446744073709551616}} => 24 n
int64 n | {"inputs":{"n":-9223372036854775809}} => 24 n
int1 n | {"inputs":{"n":0}} => accepted
int1 n | {"inputs":{"n":-2}} => 24 n
int4 n | {"inputs":{"n":-8}} => accepted
int4 n | {"inputs":{"n":7}} => accepted
bool1 c | {"inputs":{"c":2}} => 24 c
uint1 n | {"inputs":{"n":2}} => 24 n
angle1 n | {"inputs":{"n":1}} => accepted
bit1 n | {"inputs":{"n":1e0}} => 24 n
bit1 n | {"inputs":{"n":2,"n":1}} => accepted
 | {"bits":5,"bits":{}} => accepted
 | {"zz":<126*[><126*]>} => accepted
 | {"zz":<127*[><127*]>} => 21
 | {"bits":{"0":"12"}} => 22 bits 0
bit1 c,bool1 b,int64 n | {"inputs":{"c":1,"b":0,"n":-9223372036854775808}} => accepted
int64 n | {"inputs":{"n":9223372036854775808}} => 24 n
int1 n | {"inputs":{"n":-1}} => accepted
int1 n | {"inputs":{"n":1}} => 24 n
uint64 n | {"inputs":{"n":18446744073709551615}} => accepted
uint64 n | {"inputs":{"n":18446744073709551616}} => 24 n
angle32 n | {"inputs":{"n":4294967295}} => accepted
angle32 n | {"inputs":{"n":4294967296}} => 24 n
bits64 n | {"inputs":{"n":1,"n":-1}} => 24 n
 | {"bits":{"0":"0","1":"x","10":""}} => 22 bits 1
 | {"bits":{"1":"0","01":"x"}} => 22 bits 01
int4 n | {"bits":{"7":"0"},"inputs":5} => 23 7
int4 n | {"bits":{},"inputs":5} => 22 inputs
 | [ => 21
 | {} => accepted
 |   => 21
 | [] => 21
 | {"bits":{"0":"1"} => 21
 | "bits" => 21
 | {"bits":["1"]} => 22 bits
 | {"bits":{"0":1}} => 22 bits 0
 | {"bits":{"1":"0 1"}} => 22 bits 1
 | {"inputs":[]} => 22 inputs
 | {"inputs":[],"bits":{"9":""}} => 23 9
 | {"bits":{"9":"2"}} => 22 bits 9
 | {"bits":{"2":"x","10":""}} => 23 10
 | {"bits":{"00":"1"}} => 23 00
 | {"bits":{"":"1"}} => 23 
 | {"bits":{"+1":"1"}} => 23 +1
 | {"bits":{"$0":"1"}} => 23 $0
 | {"bits":{"2":"0101"}} => accepted
 | {"zz":1,"inputs":{"n":5},"bits":{}} => accepted
 | {"bits":{"0":"0","0":"1"}} => accepted
 | {"bits":{"0":"\u0031"}} => accepted
int32 n,int32 m | {"inputs":{"m":1}} => 24 n
bit1 c | {} => 24 c
int32 n | {"inputs":{"n":0.5}} => 24 n
int32 n | {"inputs":{"n":1.0}} => 24 n
int32 n | {"inputs":{"n":"1"}} => 24 n
bool1 c | {"inputs":{"c":true}} => 24 c
bit1 c | {"inputs":{"c":2}} => 24 c
int4 n | {"inputs":{"n":8}} => 24 n
int4 n | {"inputs":{"n":-9}} => 24 n
uint4 n | {"inputs":{"n":-1}} => 24 n
angle8 n | {"inputs":{"n":256}} => 24 n
bits3 n | {"inputs":{"n":8}} => 24 n
int64 a,uint64 b,angle32 c | {"inputs":{"a":-9223372036854775808,"b":18446744073709551615,"c":4294967295}} => accepted
int32 b,int32 a | {"inputs":{}} => 24 b
 | null => 21
 | 5 => 21
 | {"bits":{},} => 21
 | {} {} => 21
 | {"bits":null} => 22 bits
 | {"bits":{"0":true}} => 22 bits 0
 | {"bits":{"0":"012"}} => 22 bits 0
 | {"bits":{"0":"0_1"}} => 22 bits 0
 | {"bits":{"0":""}} => accepted
 | {"bits":{"0":"1010101010"}} => accepted
 | {"bits":{"2":"1"}} => accepted
 | {"bits":{"3":"1"}} => 23 3
 | {"bits":{"-1":"1"}} => 23 -1
 | {"bits":{"01":"1"}} => 23 01
 | {"bits":{" 0":"1"}} => 23  0
 | {"bits":{"2":"x","1":"y"}} => 22 bits 1
 | {"inputs":null} => 22 inputs
 | {"inputs":"a"} => 22 inputs
 | {"inputs":{}} => accepted
 | {"inputs":{"zz":"anything"}} => accepted
 | {"b\u0069ts":{"0":"1"}} => accepted
 | {"shots":1} => accepted
 | {"inputs":1,"bits":1} => 22 bits
bit1 n | {"inputs": {"n": 0}} => accepted
bit1 n | {"inputs": {"n": -1}} => 24 n
bit1 n | {"inputs": {"n": true}} => 24 n
bool1 n | {"inputs": {"n": false}} => 24 n
bits3 n | {"inputs": {"n": 7}} => accepted
int3 n | {"inputs": {"n": -4}} => accepted
uint3 n | {"inputs": {"n": -1}} => 24 n
int64 n | {"inputs": {"n": 9223372036854775807}} => accepted
int32 n | {"inputs": {"n": -2147483648}} => accepted
int32 n | {"inputs":{"n":-0}} => 24 n
int32 a,int32 b | {"inputs":{"a":1}} => 24 b
int32 b,int32 a | {"inputs":{"a":"x","b":"y"}} => 24 b
 | {"bits":{"0":"1"}} => accepted
 | {"bits":1} => 22 bits
uint1 a0,int3 é1 | {"inputs": {"a0": -5, "\u00e91": -5}, "bits": {"0": "0 1"}} => 22 bits 0
bits3 a0 | {"inputs": {"a0": true}} => 24 a0
int1 b0,angle32 n11,bits64 a2 | {} => 24 b0
angle1 a0 | {"inputs": {"a0": 0}, "bits": {"3": "1"}} => 23 3
 |  => 21
uint1 b0,int2 b1 | null => 21"##;
