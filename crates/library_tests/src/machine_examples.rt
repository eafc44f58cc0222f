/// The built-in machine's table: the text of `examples/built_in.json`.
pub const BUILT_IN: &str = r#"{
  "version": 1,
  "dt": 1000,
  "qubits": 3,
  "controllers": ["hub", "drive", "drive", "drive", "acquire"],
  "ports": [
    {"name": "d0", "controller": 1, "qubits": [0]},
    {"name": "d1", "controller": 2, "qubits": [1]},
    {"name": "d2", "controller": 3, "qubits": [2]},
    {"name": "a0", "controller": 4, "qubits": [0]},
    {"name": "a1", "controller": 4, "qubits": [1]},
    {"name": "a2", "controller": 4, "qubits": [2]}
  ],
  "frames": [
    {"name": "d0f", "port": "d0", "frequency": 5000000000, "phase": 0},
    {"name": "d1f", "port": "d1", "frequency": 5000000000, "phase": 0},
    {"name": "d2f", "port": "d2", "frequency": 5000000000, "phase": 0},
    {"name": "a0f", "port": "a0", "frequency": 5000000000, "phase": 0},
    {"name": "a1f", "port": "a1", "frequency": 5000000000, "phase": 0},
    {"name": "a2f", "port": "a2", "frequency": 5000000000, "phase": 0}
  ],
  "waveforms": [
    {"name": "w4", "samples": [[1000, 0], [1000, 0], [1000, 0], [1000, 0]]},
    {"name": "w8", "samples": [[1000, 0], [1000, 0], [1000, 0], [1000, 0], [1000, 0], [1000, 0], [1000, 0], [1000, 0]]},
    {"name": "r20", "samples": [[1000, 0], [1000, 0], [1000, 0], [1000, 0], [1000, 0], [1000, 0], [1000, 0], [1000, 0], [1000, 0], [1000, 0], [1000, 0], [1000, 0], [1000, 0], [1000, 0], [1000, 0], [1000, 0], [1000, 0], [1000, 0], [1000, 0], [1000, 0]]}
  ],
  "families": {
    "drive": ["d0f", "d1f", "d2f"],
    "acquire": ["a0f", "a1f", "a2f"]
  },
  "gap": 10,
  "budget": 100,
  "mail": 4,
  "cal": "defcal x q { play(drive(q), w4); }\ndefcal sx q { play(drive(q), w4); }\ndefcal rz(angle[32] t) q { shift_phase(drive(q), t); }\ndefcal cx a, b { play(drive(a), w8); play(drive(b), w8); }\ndefcal measure q -> bit { return capture_v2(acquire(q), r20); }\n"
}
"#;

/// Another machine's table: the text of `examples/five_qubits.json`.
pub const FIVE_QUBITS: &str = r#"{
  "version": 1,
  "dt": 500,
  "qubits": 5,
  "controllers": ["hub", "drive", "drive", "acquire"],
  "ports": [
    {"name": "d0", "controller": 1, "qubits": [0]},
    {"name": "d1", "controller": 1, "qubits": [1]},
    {"name": "d2", "controller": 1, "qubits": [2]},
    {"name": "d3", "controller": 2, "qubits": [3]},
    {"name": "d4", "controller": 2, "qubits": [4]},
    {"name": "c01", "controller": 1, "qubits": [0, 1]},
    {"name": "c34", "controller": 2, "qubits": [3, 4]},
    {"name": "a0", "controller": 3, "qubits": [0]},
    {"name": "a1", "controller": 3, "qubits": [1]},
    {"name": "a2", "controller": 3, "qubits": [2]},
    {"name": "a3", "controller": 3, "qubits": [3]},
    {"name": "a4", "controller": 3, "qubits": [4]},
    {"name": "line", "controller": 3, "qubits": [0, 1, 2, 3, 4]}
  ],
  "frames": [
    {"name": "d0f", "port": "d0", "frequency": 4800000000, "phase": 0},
    {"name": "d1f", "port": "d1", "frequency": 4810000000, "phase": 0},
    {"name": "d2f", "port": "d2", "frequency": 4820000000, "phase": 0},
    {"name": "d3f", "port": "d3", "frequency": 4830000000, "phase": 0},
    {"name": "d4f", "port": "d4", "frequency": 4840000000, "phase": 0},
    {"name": "c01f", "port": "c01", "frequency": 5000000000, "phase": 0},
    {"name": "c34f", "port": "c34", "frequency": 5000000000, "phase": 0},
    {"name": "a0f", "port": "a0", "frequency": 7000000000, "phase": 0},
    {"name": "a1f", "port": "a1", "frequency": 7050000000, "phase": 0},
    {"name": "a2f", "port": "a2", "frequency": 7100000000, "phase": 0},
    {"name": "a3f", "port": "a3", "frequency": 7150000000, "phase": 0},
    {"name": "a4f", "port": "a4", "frequency": 7200000000, "phase": 0},
    {"name": "pump", "port": "line", "frequency": 8000000000, "phase": 1073741824}
  ],
  "waveforms": [
    {"name": "half", "samples": [[0, 0], [400, 100], [800, 200], [1000, 0], [800, -200], [400, -100], [0, 0], [0, 0]]},
    {"name": "long", "samples": [[1000, 0], [1000, 0], [1000, 0], [1000, 0], [1000, 0], [1000, 0], [1000, 0], [1000, 0], [1000, 0], [1000, 0], [1000, 0], [1000, 0], [1000, 0], [1000, 0], [1000, 0], [1000, 0], [1000, 0], [1000, 0], [1000, 0], [1000, 0], [1000, 0], [1000, 0], [1000, 0], [1000, 0]]},
    {"name": "probe", "samples": [[500, 0], [500, 0], [500, 0], [500, 0], [500, 0], [500, 0], [500, 0], [500, 0], [500, 0], [500, 0], [500, 0], [500, 0], [500, 0], [500, 0], [500, 0], [500, 0], [500, 0], [500, 0], [500, 0], [500, 0], [500, 0], [500, 0], [500, 0], [500, 0], [500, 0], [500, 0], [500, 0], [500, 0], [500, 0], [500, 0], [500, 0], [500, 0], [500, 0], [500, 0], [500, 0], [500, 0], [500, 0], [500, 0], [500, 0], [500, 0]]}
  ],
  "families": {
    "drive": ["d0f", "d1f", "d2f", "d3f", "d4f"],
    "acquire": ["a0f", "a1f", "a2f", "a3f", "a4f"]
  },
  "gap": 20,
  "budget": 1000,
  "mail": 8,
  "cal": "defcal x q { play(drive(q), half); play(drive(q), half); }\ndefcal sx q { play(drive(q), half); }\ndefcal rz(angle[32] t) q { shift_phase(drive(q), t); }\ndefcal cx $0, $1 { play(c01f, long); }\ndefcal cx $3, $4 { play(c34f, long); }\ndefcal measure q -> bit { return capture_v2(acquire(q), probe); }\n"
}
"#;

/// A tape: the text of `examples/tape.json`.
pub const TAPE: &str = r#"{
  "bits": {
    "0": "1101",
    "2": "0"
  },
  "inputs": {
    "t": 5,
    "offset": -3
  }
}
"#;
